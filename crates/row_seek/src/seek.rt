// The first stored cell at or after a position, from where a cursor stands: by a walk, along the runs, or by a search over the ranks.
ghost use Rattle.std.specs.Prelude.{◌≡◌, ◌+◌, ◌<◌, get_or};
ghost use Rattle.format.specs.Accepted.{positions_of};
ghost use Rattle.parts.specs.Holds.{ViewOf};
ghost use Rattle.kinds.specs.Steps.{stores_runs};
ghost use Rattle.row_seek.specs.Ready.{Ready, Reached, Stands, Around};

use format::{Position, Rank, View};
use kinds::search::{find, run_of};
use kinds::steps;
use kinds::steps::{by_walk, stores_runs};
use parts::Cursor;
use search::stored_position;

// A rank that stands below a position, and a later one, or N, that does not; `at` is where the later one stands.
#[derive(Clone, Copy)]
pub struct Gap {
    pub low: u32,
    pub high: u32,
    pub at: u32,
}

// From a rank below p on, by steps that double.
fn gallop(file: &[u8], v: View, from: u32, p: Position) -> Gap
    requires { ViewOf file.now v × (from < v.words) × (get_or (positions_of file.now) from 0 < p.0) }
    ensures { Around file.now v p.0 result }
{
    let mut low = from;
    let mut step: u32 = 1;
    while step < v.words - low {
        let later = low + step;
        let at = stored_position(file, v, Rank(later));
        if p.0 <= at.0 {
            return Gap {
                low,
                high: later,
                at: at.0,
            };
        }
        low = later;
        step = 2 * step;
    }
    Gap {
        low,
        high: v.words,
        at: 0,
    }
}

// By halves, until the two ranks are neighbours.
fn narrowed(file: &[u8], v: View, mut g: Gap, p: Position) -> Gap
    requires { ViewOf file.now v × Around file.now v p.0 g }
    ensures { Around file.now v p.0 result × (result.high ≡ result.low + 1) }
{
    while 1 < g.high - g.low {
        let middle = g.low + (g.high - g.low) / 2;
        let at = stored_position(file, v, Rank(middle));
        if at.0 < p.0 {
            g.low = middle;
        } else {
            g.high = middle;
            g.at = at.0;
        }
    }
    g
}

// Where runs are stored: the cursor at a rank, with the cells of its run from there on; N is no rank.
pub fn at_rank(file: &[u8], v: View, mut c: Cursor, rank: u32) -> Cursor
    requires { ViewOf file.now v × stores_runs v.kind }
    ensures { Stands file.now v rank result }
{
    c.rank = rank;
    if rank < v.words {
        let part = run_of(file, v, Rank(rank));
        c.at = part.at as u32;
        c.last = c.at + part.cells - 1;
    }
    c
}

// Where runs are stored, from below p on: along the run where the cursor stands, to the run behind it, or by a search for p.
fn along_runs(file: &[u8], v: View, mut c: Cursor, p: Position) -> Cursor
    requires { ViewOf file.now v × stores_runs v.kind × (p.0 < v.cells) × Ready file.now v c p.0 × (c.rank < v.words) × (c.at < p.0) }
    ensures { Reached file.now v result p.0 }
{
    let end = c.last + 1;
    if p.0 < end {
        c.rank += p.0 - c.at;
        c.at = p.0;
        return c;
    }
    if p.0 == end {
        return at_rank(file, v, c, c.rank + (p.0 - c.at));
    }
    at_rank(file, v, c, find(file, v, p).below)
}

// The first rank at or after p; N where there is none. Where runs are stored, each position of a rank is a search, and one does for a run.
pub fn seek(file: &[u8], v: View, mut c: Cursor, p: Position) -> Cursor
    requires { ViewOf file.now v × (p.0 < v.cells) × Ready file.now v c p.0 }
    ensures { Reached file.now v result p.0 }
{
    if v.words <= c.rank {
        return c;
    }
    if p.0 <= c.at {
        return c;
    }
    if by_walk(v.kind) {
        return steps::seek(file, v, c, p);
    }
    if stores_runs(v.kind) {
        return along_runs(file, v, c, p);
    }
    let g = narrowed(file, v, gallop(file, v, c.rank, p), p);
    c.rank = g.high;
    c.at = g.at;
    c
}
