// The searches over a view of a file. Any bytes and any view are safe.
ghost use Rattle.std.specs.Prelude.{◌≡◌, true, ◌<◌};
ghost use Rattle.parts.specs.Holds.{kind_of};
ghost use Rattle.parts.specs.Found.{FoundIn, PositionIn, RunIn};
ghost use Rattle.kinds.specs.Search.{placed_by_rank};
ghost use Rattle.kinds.specs.Steps.{stores_runs};

use super::kind::Kind;
use format::{Position, Rank, View};
use parts::{Found, RunPart};

// The place of a position among the stored ones.
pub fn find(file: &[u8], v: View, p: Position) -> Found
    requires { p.0 < v.cells }
    ensures { FoundIn (kind_of v) file.now v p.0 result }
{
    match Kind::try_from(v.kind) {
        Ok(Kind::Runs) => runs::search::find(file, v, p),
        Ok(Kind::Positions) => positions::search::find(file, v, p),
        Ok(Kind::BaseOffset) => base_offset::search::find(file, v, p),
        Ok(Kind::Jumps) => jumps::search::find(file, v, p),
        Ok(Kind::PagedRuns) => paged_runs::search::find(file, v, p),
        Ok(Kind::PointedJumps) => pointed_jumps::search::find(file, v, p),
        Err(_) => Found {
            below: 0,
            here: false,
        },
    }
}

// The position of a rank; over unfit bytes any number.
pub fn position_of(file: &[u8], v: View, r: Rank) -> u64
    requires { r.0 < v.words }
    ensures { PositionIn (kind_of v) file.now v r.0 result }
{
    match Kind::try_from(v.kind) {
        Ok(Kind::Runs) => runs::search::position_of(file, v, r),
        Ok(Kind::Positions) => positions::search::position_of(file, v, r),
        Ok(Kind::BaseOffset) => base_offset::search::position_of(file, v, r),
        Ok(Kind::Jumps) => jumps::search::position_of(file, v, r),
        Ok(Kind::PagedRuns) => paged_runs::search::position_of(file, v, r),
        Ok(Kind::PointedJumps) => pointed_jumps::search::position_of(file, v, r),
        Err(_) => 0,
    }
}

// Whether a kind has the position of a rank at a place that the rank gives.
pub fn placed_by_rank(kind: u32) -> bool
    ensures { result ≡ true → placed_by_rank kind }
{
    matches!(Kind::try_from(kind), Ok(Kind::Positions | Kind::BaseOffset))
}

// In such a kind: the position of a rank, with no search.
pub fn placed_position(file: &[u8], v: View, r: Rank) -> u64
    requires { placed_by_rank v.kind × (r.0 < v.words) }
    ensures { PositionIn (kind_of v) file.now v r.0 result }
{
    match Kind::try_from(v.kind) {
        Ok(Kind::Positions) => positions::search::position_of(file, v, r),
        _ => base_offset::search::position_of(file, v, r),
    }
}

// In a file that stores runs: where a rank stands, and the ranks after it in its run; over unfit bytes any numbers.
pub fn run_of(file: &[u8], v: View, r: Rank) -> RunPart
    requires { stores_runs v.kind × (r.0 < v.words) }
    ensures { RunIn (kind_of v) file.now v r.0 result }
{
    match Kind::try_from(v.kind) {
        Ok(Kind::Runs) => runs::search::run_of(file, v, r),
        _ => paged_runs::search::run_of(file, v, r),
    }
}
