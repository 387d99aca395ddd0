// The query box.
#![tactic(auto)]

mod changes;
mod entries;
mod inner;
mod notes;
mod party;
pub mod query_box;
mod renewal;
mod rules;
pub mod slip;
