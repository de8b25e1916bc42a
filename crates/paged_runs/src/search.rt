// The searches (document 01, "The file", kind 5), through the levels from the top page down.
ghost use Rattle.std.specs.Prelude.{◌<◌};
ghost use Rattle.format.specs.PagedRuns.{pages_kind};
ghost use Rattle.parts.specs.Found.{FoundIn, PositionIn, RunIn};

use descent::search::{Asked, search};
use format::{Position, Rank, View};
use parts::{Found, RunPart};

// Where a position stands among the stored ones: the cells before it that are not empty are below it.
pub fn find(file: &[u8], v: View, p: Position) -> Found
    requires { p.0 < v.cells }
    ensures { FoundIn (pages_kind v.width v.step) file.now v p.0 result }
{
    let Some(found) = search(file, v.start, v.step, v.seconds, p.0, Asked::Place) else {
        return Found {
            below: v.words,
            here: false,
        };
    };
    let below = u64::from(p.0).saturating_sub(found / 2) as u32;
    Found {
        below,
        here: (found % 2 == 1) & (below < v.words),
    }
}

// The position of a rank: past the empty cells up to it.
pub fn position_of(file: &[u8], v: View, r: Rank) -> u64
    requires { r.0 < v.words }
    ensures { PositionIn (pages_kind v.width v.step) file.now v r.0 result }
{
    let Some(found) = search(file, v.start, v.step, v.seconds, r.0, Asked::Rank) else {
        return 0;
    };
    u64::from(r.0) + found / 2
}

// Where a rank stands, and how many ranks from it on its run has.
pub fn run_of(file: &[u8], v: View, r: Rank) -> RunPart
    requires { r.0 < v.words }
    ensures { RunIn (pages_kind v.width v.step) file.now v r.0 result }
{
    let Some(found) = search(file, v.start, v.step, v.seconds, r.0, Asked::Run) else {
        return RunPart {
            at: u64::from(r.0) + 4294967295,
            cells: 4294967295,
        };
    };
    RunPart {
        at: u64::from(r.0) + found / 4294967296,
        cells: (found % 4294967296) as u32,
    }
}
