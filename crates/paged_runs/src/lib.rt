// Kind 5, paged runs (document 01, "The file").
#![tactic(auto)]

pub mod check;
pub mod coding;
pub mod search;
pub mod setting;
pub mod steps;
