// The cursor's step along level 0. Any bytes, view and cursor will do.
ghost use Rattle.std.specs.Prelude.{◌≡◌, ◌+◌, ◌-◌, ◌≤◌, length};
ghost use Rattle.parts.specs.Cursor.{stepped_as, Batch};
ghost use Rattle.page_walk.specs.Steps.{next};

use format::View;
use page_walk::steps::{all_there, along, enter, page_of};
use parts::Cursor;
use parts::walk::{along_run, fill_run};
use wire::load_pair;

// The cursor at the next rank.
pub fn next(file: &[u8], v: View, mut c: Cursor) -> Cursor
    ensures { result ≡ next file.now v c }
{
    if c.at < c.last {
        c.rank = c.rank.wrapping_add(1);
        c.at += 1;
        return c;
    }
    let p = page_of(v.step, c);
    enter(load_pair(file, v.second as usize + 8 * p.next as usize), p)
}

// k cells along the run, then one step.
pub fn past(file: &[u8], v: View, c: Cursor, k: u32) -> Cursor
    requires { k ≤ c.last - c.at }
    ensures { result ≡ stepped_as (next file.now v) c (k + 1) }
{
    next(file, v, along_run(c, k))
}

// ---- many ranks

// The positions of the ranks from the cursor on, as many as `out` has elements; the cursor after them.
pub fn positions(file: &[u8], v: View, mut c: Cursor, out: &mut [u32]) -> Cursor
    ensures { Batch (next file.now v) c (length out.old) result out.new }
{
    if all_there(file, v, c, out.len()) {
        return along(file, v, c, out);
    }
    let mut i: usize = 0;
    while i < out.len() {
        let m = fill_run(out, i, c);
        c = past(file, v, c, (m - 1) as u32);
        i += m;
    }
    c
}
