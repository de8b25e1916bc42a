// Kind 3, base and offset: a base of 4 bytes for each `step` ranks, and for each rank the offset from its base.
#![tactic(auto)]

pub mod check;
pub mod coding;
pub mod search;
pub mod setting;
pub mod steps;
