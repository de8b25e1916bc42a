// A file with one cell written, and a file in another setting.
#![tactic(auto)]

pub mod change;
pub mod write;
