// The rank at a position, sought from where a cursor stands: positions that never fall cost one walk along the file.
ghost use Rattle.std.specs.Prelude.{◌+◌, ◌≤◌, ◌<◌};
ghost use Rattle.format.specs.Answers.{rank_says};
ghost use Rattle.parts.specs.Holds.{ViewOf};
ghost use Rattle.kinds.specs.Steps.{stores_runs};
ghost use Rattle.search.specs.Searched.{RankSearched};
ghost use Rattle.row_seek.specs.Ready.{Ready, Reached};

use super::seek::{at_rank, seek};
use format::{Position, Rank, RankAnswer, View};
use kinds::steps::{start, stores_runs};
use parts::Cursor;
use parts::walk::{before_first, stretch};

#[derive(Clone, Copy)]
pub struct Sought {
    pub answer: RankAnswer,
    pub cursor: Cursor,
}

// A cursor at rank 0, from which every position can be sought.
pub fn begin(file: &[u8], v: View) -> Cursor
    requires { ViewOf file.now v }
    ensures { Ready file.now v result 0 }
{
    if stores_runs(v.kind) {
        return at_rank(file, v, before_first(), 0);
    }
    start(file, v)
}

// The rank at a position that is not below those sought before, and the cursor at the first rank from there on.
pub fn rank_from(file: &[u8], v: View, c: Cursor, p: Position) -> Sought
    requires { ViewOf file.now v × (p.0 < v.cells) × Ready file.now v c p.0 }
    ensures { RankSearched file.now v p.0 (rank_says (Ok result.answer)) × Reached file.now v result.cursor p.0 }
{
    let next = seek(file, v, c, p);
    if next.rank < v.words {
        if next.at == p.0 {
            return Sought {
                answer: RankAnswer::Rank(Rank(next.rank)),
                cursor: next,
            };
        }
    }
    Sought {
        answer: RankAnswer::Empty(Rank(next.rank)),
        cursor: next,
    }
}

// How many of n cells from p on come before the next stored one.
pub fn empty_ahead(v: View, c: Cursor, p: u32, n: usize) -> usize
    requires { c.rank < v.words → p < c.at }
    ensures { (result ≤ n) × (0 < n → 0 < result) × (c.rank < v.words → p + result ≤ c.at) }
{
    if v.words <= c.rank {
        return n;
    }
    let ahead = (c.at - p) as usize;
    ahead.min(n)
}

// How many of n cells from the cursor's on are known to be stored: where runs are stored those of its run, else its own.
pub fn stored_ahead(v: View, c: Cursor, n: u32) -> u32
    requires { 0 < n }
    ensures { (0 < result) × (result ≤ n) × (1 < result → stores_runs v.kind × (c.at + result ≤ c.last + 1)) }
{
    if stores_runs(v.kind) {
        return stretch(c, n);
    }
    1
}
