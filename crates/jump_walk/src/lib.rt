// Along jumps and differences, as kinds 4 and 6 have them (document 01, "The file"): the cursor's steps, and the search from a place on.
#![tactic(auto)]

pub mod search;
pub mod steps;
