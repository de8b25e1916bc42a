// The positions of a checked file with one cell laid over them, into the parts of a new file.
#![tactic(auto)]

pub mod edited;
pub mod run_parts;
pub mod walk;
