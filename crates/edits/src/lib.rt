// One cell laid over a checked file: which of its ranks go into the new one, and the words after it.
#![tactic(auto)]

pub mod words;

use format::Position;

// Which ranks of a file go into another: those before `before`, then a new one at `added`, if any, then those from `after` on.
#[derive(Clone, Copy)]
pub struct Edit {
    pub before: u32,
    pub added: Option<Position>,
    pub after: u32,
}
