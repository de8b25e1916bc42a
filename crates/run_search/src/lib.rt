// The searches among the runs of kind 1 (document 01, "The file"): by position and by rank.
#![tactic(auto)]

pub mod search;
