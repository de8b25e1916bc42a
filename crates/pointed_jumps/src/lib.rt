// Kind 6, jumps with pointers (document 02, S-7): its setting, the check of the parts, the searches, the encoder. The walk along the stored positions is
// jump_walk's.
#![tactic(auto)]

pub mod check;
pub mod coding;
pub mod pointers;
pub mod search;
pub mod setting;
