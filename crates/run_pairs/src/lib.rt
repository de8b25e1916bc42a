// Kind 1's runs put out as pairs (document 01, "The file"): one position, and many.
#![tactic(auto)]

pub mod batch;
pub mod pair;
