// Positions into differences and jumps, as kinds 4 and 6 have them (document 01, "The file"): one position, and many.
#![tactic(auto)]

pub mod coding;
