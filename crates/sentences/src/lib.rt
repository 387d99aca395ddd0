// Cut lists, names, tokens and sentences: what a text means, or why it is refused.
#![tactic(auto)]

pub mod cursor;
pub mod cuts;
pub mod faults;
pub mod lists;
pub mod name;
pub mod names;
pub mod reading;
pub mod symbols;
pub mod tokens;
