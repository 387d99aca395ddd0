// Censors: what is replied to a question, so that no secret can be concluded.
#![tactic(auto)]

pub mod builtin;
pub mod censor;
pub mod guard;
pub mod question;
pub mod replay;
pub mod table;
