// Kind 3's groups (document 01, "The file"): a base and the offsets of the ranks that it serves, counted, checked, searched, walked along and put out.
#![tactic(auto)]

pub mod check;
pub mod coding;
pub mod counts;
pub mod search;
pub mod steps;
