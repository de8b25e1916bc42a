// The levels of kind 5 (document 01, "The file"): their entries in a file, how many there are, and those above level 0 put out and checked.
#![tactic(auto)]

pub mod check;
pub mod entry;
pub mod put;
pub mod sizes;
