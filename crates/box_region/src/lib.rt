// A box in the extents of a picture (document 01, "The calls"): the number of its cells, and the same cells in longer rows.
#![tactic(auto)]

pub mod count;
pub mod region;
