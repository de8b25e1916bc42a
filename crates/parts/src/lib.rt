// What the kinds share (document 01, "The file"). A kind's code reads and writes the two parts of a file, wherever the header ends and whatever the calls
// make of it; specs/ has its contract.
#![tactic(auto)]

pub mod encode;
pub mod search;
pub mod walk;

// Where a position stands among the stored ones: how many are below it, and whether it is one of them. The number holds in both cases, and is read without
// asking which.
#[derive(Clone, Copy)]
pub struct Found {
    pub below: u32,
    pub here: bool,
}

// Where a rank stands, and how many ranks from it on stand at the cells that follow without a gap.
#[derive(Clone, Copy)]
pub struct RunPart {
    pub at: u64,
    pub cells: u32,
}

// The bytes of each part, by the entry counts.
#[derive(Clone, Copy)]
pub struct PartBytes {
    pub first: usize,
    pub second: usize,
}

// A place in a walk along the stored positions of a file.
#[derive(Clone, Copy)]
pub struct Cursor {
    // the rank where it stands, and the position of that rank
    pub rank: u32,
    pub at: u32,
    // kinds 1, 3, 4 and 6, and 5: the index of the next run, base, jump, entry of level 0
    pub next: u32,
    // kinds 1 and 5: the last cell of the run
    pub last: u32,
    // kind 3: the ranks so far of the base; kind 5: the entries so far of the page
    pub used: u32,
    // kind 3: the base; kind 5: the last cell before the page
    pub base: u32,
    // kind 5: the empty cells before the page
    pub empty: u32,
}

// The encoder between two positions. The same state measures and writes.
#[derive(Clone, Copy)]
pub struct Encoder {
    // positions taken so far, and the last of them
    pub rank: u32,
    pub last: u32,
    // kind 3: ranks that the present base still serves; kind 5: entries that the present page still takes
    pub left: u32,
    // kind 3: the present base
    pub base: u32,
    // kind 5: cells, and empty cells, before the present page
    pub cells: u32,
    pub empty: u32,
    // where the next entry of each part goes
    pub first: usize,
    pub second: usize,
    // kind 3: each offset so far is at most 256^w - 1, gathered without a branch
    pub fits: bool,
}

// What the header counts: the stored words, the entries of each part, and the bytes of each part, `first` and `second`.
#[derive(Clone, Copy)]
pub struct Sizes {
    pub words: u32,
    pub firsts: u32,
    pub seconds: u32,
    pub first: u32,
    pub second: u32,
}
