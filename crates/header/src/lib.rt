// The header of a file (document 01, "The file"): the dimensions, and the numbers that it says.
#![tactic(auto)]

pub mod coordinates;
pub mod extents;
pub mod view;
