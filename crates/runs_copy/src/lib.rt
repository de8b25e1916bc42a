// Kind 1 put out from kind 1 (document 01, "The file"): ranks of a file, whole runs at once.
#![tactic(auto)]

pub mod copy;
