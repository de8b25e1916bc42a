// Kind 2, positions (document 01, "The file").
#![tactic(auto)]

pub mod check;
pub mod coding;
pub mod search;
pub mod setting;
pub mod steps;
