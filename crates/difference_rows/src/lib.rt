// Batches of positions along a row of differences and its jumps, as kind 4 has them (document 01, "The file"): read and put out.
#![tactic(auto)]

pub mod batch;
pub mod put;
