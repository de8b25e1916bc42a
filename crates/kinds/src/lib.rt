// The kinds: a number becomes a `Kind` in `kind` and nowhere else. Everything above reads and writes the parts of a file through this crate.
#![tactic(auto)]

pub mod coding;
pub mod copying;
pub mod kind;
pub mod parts_of;
pub mod search;
pub mod setting;
pub mod steps;
