// Parts of the caller's own files, handed back without a copy (document 01, "The calls").
#![tactic(auto)]

pub mod ranks;
mod same;
pub mod shorter;
