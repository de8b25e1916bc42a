// Kind 5's runs put out as entries of level 0, in pages (document 01, "The file"): one position, and a batch.
#![tactic(auto)]

pub mod batch;
pub mod entry;
