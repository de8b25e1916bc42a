// Kind 1, runs (document 01, "The file"): the rule of its setting, the check of the parts, the searches, the walk, and the encoder.
#![tactic(auto)]

pub mod check;
pub mod coding;
pub mod search;
pub mod setting;
pub mod steps;
