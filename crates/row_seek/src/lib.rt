// The stored cells sought from where a cursor stands, at positions that never fall.
#![tactic(auto)]

pub mod resume;
pub mod seek;
