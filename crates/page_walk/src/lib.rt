// Along level 0 of kind 5, page by page (document 01, "The file"): its check, and the cursor's steps.
#![tactic(auto)]

pub mod check;
pub mod steps;
