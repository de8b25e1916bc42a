// A file read: its check, the words of all cells, the three lookups and a box of words.
#![tactic(auto)]

pub mod boxes;
pub mod check;
pub mod expand;
pub mod lookup;
