// The texts that a program is given, and their lines.
#![tactic(auto)]

pub mod files;
pub mod lines;
