// Kind 4, jumps (document 01, "The file"): its setting, the check of the parts, the searches, the encoder. The walk along the stored positions is jump_walk's.
#![tactic(auto)]

pub mod check;
pub mod coding;
pub mod search;
pub mod setting;
