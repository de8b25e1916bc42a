// The pass over the jumps and differences of kinds 4 and 6 (document 01, "The file") that checks them: rank by rank, and in groups of ranks.
#![tactic(auto)]

pub mod check;
