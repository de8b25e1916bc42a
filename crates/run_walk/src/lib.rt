// Along kind 1's runs, one after the other (document 01, "The file"): the cursor's steps from run to run.
#![tactic(auto)]

pub mod steps;
