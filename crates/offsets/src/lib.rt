// The offsets of kind 3 (document 01, "The file"), rows of numbers of one or two bytes: checked, searched, added to a base and put out.
#![tactic(auto)]

pub mod ends;
pub mod falls;
pub mod last;
pub mod put;
pub mod sums;
