// The searches of kind 1: the pair of the run that is found tells the rest. Any bytes and any view are safe.
ghost use Rattle.std.specs.Prelude.{◌≡◌, ◌+◌, ◌^◌, ◌<◌, ◌≤◌};
ghost use Rattle.format.specs.Runs.{runs_kind};
ghost use Rattle.parts.specs.Found.{FoundIn, PositionIn, RunIn};

use format::{Position, Rank, View};
use parts::{Found, RunPart};
use run_search::search::{ranks_before, run, run_at, run_with};

// Where position p stands among the stored ones. In run j the cell is stored from the position on that its first rank has.
pub fn find(file: &[u8], v: View, p: Position) -> Found
    requires { p.0 < v.cells }
    ensures { FoundIn (runs_kind v.width v.step) file.now v p.0 result }
{
    let place = p.0;
    let j = run_at(file, v.start, v.firsts, place);
    if v.firsts <= j {
        return Found {
            below: v.words,
            here: false,
        };
    }
    let first = ranks_before(file, v.start, j);
    // Over unfit bytes only: else no more cells are stored before a run than stand there.
    if (place as u64) < first {
        return Found {
            below: v.words,
            here: false,
        };
    }
    let empty = run(file, v.start, j).second;
    if (place as u64) < first + empty as u64 {
        return Found {
            below: first as u32,
            here: false,
        };
    }
    let rank = place - empty;
    Found {
        below: rank,
        here: rank < v.words,
    }
}

// The position of rank r; any number over unfit bytes.
pub fn position_of(file: &[u8], v: View, r: Rank) -> u64
    requires { r.0 < v.words }
    ensures { PositionIn (runs_kind v.width v.step) file.now v r.0 result }
{
    let rank = r.0;
    let j = run_with(file, v.start, v.firsts, rank);
    rank as u64 + run(file, v.start, j).second as u64
}

// The cells from a position up to the last of its run; any number over unfit bytes.
fn cells_up_to(at: u64, last: u32) -> u32
    ensures { at ≤ last → last + 1 < 2 ^ 32 → at + result ≡ last + 1 }
{
    if (last as u64) < at {
        return 1;
    }
    (last - at as u32).wrapping_add(1)
}

// Where rank r stands, and the ranks from it on to the end of its run; any numbers over unfit bytes.
pub fn run_of(file: &[u8], v: View, r: Rank) -> RunPart
    requires { r.0 < v.words }
    ensures { RunIn (runs_kind v.width v.step) file.now v r.0 result }
{
    let rank = r.0;
    let j = run_with(file, v.start, v.firsts, rank);
    let pair = run(file, v.start, j);
    let at = rank as u64 + pair.second as u64;
    RunPart {
        at,
        cells: cells_up_to(at, pair.first),
    }
}
