// What the C interface says in numbers: answers in 64 bits, and arrays of four numbers as extents and coordinates.
#![tactic(auto)]

pub mod code;
pub mod coordinates;
pub mod extents;
pub mod info;
