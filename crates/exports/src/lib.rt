// The C interface: each call on lent buffers under the name that include/radar_archive.h declares. A slice is a pointer and then a length in elements.
#![tactic(auto)]

pub mod boxes;
pub mod coordinates;
pub mod lent;
pub mod opened;
pub mod read;
pub mod write;
