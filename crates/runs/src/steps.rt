// The walk of kind 1: along the cells of a run, then to the next run.
ghost use Rattle.std.specs.Prelude.{◌≡◌, ◌+◌, ◌-◌, ◌≤◌, length};
ghost use Rattle.parts.specs.Cursor.{stepped_as, Batch};
ghost use Rattle.run_walk.specs.Steps.{next};

use format::View;
use parts::Cursor;
use parts::walk::{along_run, fill_run};
use run_walk::steps::{all_there, along, enter};

// One step.
pub fn next(file: &[u8], v: View, mut c: Cursor) -> Cursor
    ensures { result ≡ next file.now v c }
{
    if c.at < c.last {
        c.rank = c.rank.wrapping_add(1);
        c.at += 1;
        return c;
    }
    enter(file, v, c)
}

// k cells along the run, then one step.
pub fn past(file: &[u8], v: View, c: Cursor, k: u32) -> Cursor
    requires { k ≤ c.last - c.at }
    ensures { result ≡ stepped_as (next file.now v) c (k + 1) }
{
    next(file, v, along_run(c, k))
}

// The positions from the cursor on, as many as there is room for; the cursor past them.
pub fn positions(file: &[u8], v: View, mut c: Cursor, out: &mut [u32]) -> Cursor
    ensures { Batch (next file.now v) c (length out.old) result out.new }
{
    if all_there(file, v, c, out.len()) {
        return along(file, v, c, out);
    }
    let mut i: usize = 0;
    while i < out.len() {
        let m = fill_run(out, i, c);
        c = past(file, v, c, (m - 1) as u32);
        i += m;
    }
    c
}
