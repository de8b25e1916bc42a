// A cursor along the stored positions of a file, in rank order and at constant cost a step.
ghost use Rattle.std.specs.Prelude.{◌≡◌, true, ◌+◌, ◌-◌, ◌≤◌, length};
ghost use Rattle.parts.specs.Holds.{kind_of};
ghost use Rattle.parts.specs.Walks.{Climbs};
ghost use Rattle.kinds.specs.Steps.{next_of, start_of, walked, stepped_by, by_walk, sought_by, stores_runs, runs_of};

use super::kind::Kind;
use format::{Position, View};
use parts::Cursor;
use parts::walk::before_first;

// The cursor at the next rank.
pub fn next(file: &[u8], v: View, c: Cursor) -> Cursor
    requires { (kind_of v).allowed ≡ true }
    ensures { result ≡ next_of file.now v c }
{
    match Kind::try_from(v.kind) {
        Ok(Kind::Runs) => runs::steps::next(file, v, c),
        Ok(Kind::Positions) => positions::steps::next(file, v, c),
        Ok(Kind::BaseOffset) => base_offset::steps::next(file, v, c),
        Ok(Kind::Jumps) => jump_walk::steps::next(file, v, c),
        Ok(Kind::PagedRuns) => paged_runs::steps::next(file, v, c),
        Ok(Kind::PointedJumps) => jump_walk::steps::next(file, v, c),
        Err(_) => c,
    }
}

// The cursor at rank 0.
pub fn start(file: &[u8], v: View) -> Cursor
    requires { (kind_of v).allowed ≡ true }
    ensures { result ≡ start_of file.now v }
{
    next(file, v, before_first())
}

// The positions of the ranks from the cursor on, as many as `out` has elements; the cursor after them.
pub fn positions(file: &[u8], v: View, c: Cursor, out: &mut [u32]) -> Cursor
    requires { (kind_of v).allowed ≡ true }
    ensures { (result ≡ stepped_by file.now v c (length out.old)) × (out.new ≡ walked file.now v c (length out.old)) }
{
    // Both kinds by one call: with two the compiler keeps it as a function of its own
    if by_walk(v.kind) {
        return jump_walk::steps::positions(file, v, c, out);
    }
    match Kind::try_from(v.kind) {
        Ok(Kind::Runs) => runs::steps::positions(file, v, c, out),
        Ok(Kind::Positions) => positions::steps::positions(file, v, c, out),
        Ok(Kind::BaseOffset) => base_offset::steps::positions(file, v, c, out),
        Ok(Kind::PagedRuns) => paged_runs::steps::positions(file, v, c, out),
        _ => c,
    }
}

// A kind whose position of a rank is found by a walk: positions that never fall are better sought along the ranks.
pub fn by_walk(kind: u32) -> bool
    ensures { result ≡ by_walk kind }
{
    matches!(Kind::try_from(kind), Ok(Kind::Jumps | Kind::PointedJumps))
}

// In such a kind, where the positions ahead never fall: on to the first position from p on, or past the last rank.
pub fn seek(file: &[u8], v: View, c: Cursor, p: Position) -> Cursor
    requires { (by_walk v.kind ≡ true) × Climbs (next_of file.now v) v.words c }
    ensures { result ≡ sought_by file.now v p.0 (v.words - c.rank) c }
{
    jump_walk::steps::seek(file, v, c, p)
}

// Whether a kind stores runs.
pub fn stores_runs(kind: u32) -> bool
    ensures { (result ≡ true → stores_runs kind) × (stores_runs kind → result ≡ true) }
{
    matches!(Kind::try_from(kind), Ok(Kind::Runs | Kind::PagedRuns))
}

// In a file that stores runs: k cells along the cursor's run, then one step.
pub fn past_cells(file: &[u8], v: View, c: Cursor, k: u32) -> Cursor
    requires { stores_runs v.kind × (k ≤ c.last - c.at) }
    ensures { result ≡ stepped_by file.now v c (k + 1) }
{
    // By `return`: as the value of the match the cursor is copied, run by run
    match Kind::try_from(v.kind) {
        Ok(Kind::Runs) => return runs::steps::past(file, v, c, k),
        _ => return paged_runs::steps::past(file, v, c, k),
    }
}

// In a file that stores runs: how many they are.
pub fn run_count(v: View) -> u32
    ensures { result ≡ runs_of v }
{
    match Kind::try_from(v.kind) {
        Ok(Kind::Runs) => v.firsts,
        _ => v.seconds,
    }
}
