// Histories of a box: what each call answers and leaves, and what is promised of every history.
#![tactic(auto)]

pub mod data;
pub mod promise;
pub mod refusals;
