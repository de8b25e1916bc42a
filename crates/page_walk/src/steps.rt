// The cursor's step along level 0, and a batch along its pages.
ghost use Rattle.std.specs.Prelude.{◌≡◌, ◌+◌, ◌-◌, ◌≤◌, true, length};
ghost use Rattle.parts.specs.Cursor.{stepped_as, Batch};
ghost use Rattle.page_walk.specs.Steps.{page_of, entered_by, next_in, next, There, Filled};

use format::View;
use parts::Cursor;
use parts::walk::{along_run, fill_run};
use wire::{Pair, get_pair};

// The page of the next entry: the same, or the one after the run where the cursor stands at the end.
pub fn page_of(step: u32, mut c: Cursor) -> Cursor
    ensures { result ≡ page_of step c }
{
    if c.used < step {
        c.used += 1;
        return c;
    }
    c.used = 1;
    c.base = c.at;
    c.empty = c.at.saturating_sub(c.rank);
    c
}

// In the run of the entry x, in the page p. The entry counts the cells and the empty cells from the page's start.
pub fn enter(x: Pair, mut p: Cursor) -> Cursor
    ensures { result ≡ entered_by x p }
{
    p.rank = p.rank.wrapping_add(1);
    p.at = p.rank.wrapping_add(p.empty.wrapping_add(x.second));
    p.next = p.next.wrapping_add(1);
    p.last = p.base.wrapping_add(x.first);
    p
}

// ---- many ranks

// Whether the n entries from the cursor's next on are all there.
pub fn all_there(file: &[u8], v: View, c: Cursor, n: usize) -> bool
    ensures { result ≡ true → There file.now v.second c n }
{
    if 65536 < n {
        return false;
    }
    v.second as usize + 8 * (c.next as usize + n) <= file.len()
}

// k cells along the run, then one step, where the next entry is there.
fn past_there(file: &[u8], v: View, c: Cursor, k: u32) -> Cursor
    requires { (k ≤ c.last - c.at) × There file.now v.second c 1 }
    ensures { result ≡ stepped_as (next file.now v) c (k + 1) }
{
    let mut d = along_run(c, k);
    if d.at < d.last {
        d.rank = d.rank.wrapping_add(1);
        d.at += 1;
        return d;
    }
    let p = page_of(v.step, d);
    enter(get_pair(file, v.second as usize + 8 * p.next as usize), p)
}

// Where a walk into a buffer stands: the cursor, and how many elements are filled.
#[derive(Clone, Copy)]
struct Ahead {
    c: Cursor,
    filled: usize,
}

// The positions of the ranks from the cursor on, into the elements from an index on, up to the last entry of the cursor's page. An entry for each is
// there. The cursor stays in registers: no call takes it and gives it back.
fn along_page(
    file: &[u8],
    second: usize,
    step: u32,
    mut c: Cursor,
    out: &mut [u32],
    from: usize,
) -> Ahead
    requires { (from ≤ length out.old) × There file.now second c (length out.old - from) }
    ensures { Filled (next_in file.now second step) c from result.filled out.old result.c out.new }
{
    let mut i = from;
    while i < out.len() {
        if step <= c.used {
            return Ahead { c, filled: i };
        }
        let m = fill_run(out, i, c);
        i += m;
        let more = (m - 1) as u32;
        let at = c.at + more;
        c.rank = c.rank.wrapping_add(more).wrapping_add(1);
        if at < c.last {
            c.at = at + 1;
        } else {
            let x = get_pair(file, second + 8 * c.next as usize);
            c.used += 1;
            c.at = c.rank.wrapping_add(c.empty.wrapping_add(x.second));
            c.next = c.next.wrapping_add(1);
            c.last = c.base.wrapping_add(x.first);
        }
    }
    Ahead { c, filled: i }
}

// The positions of the ranks from the cursor on, where an entry for each is there: the last run of a page and the step to the next, then along it.
pub fn along(file: &[u8], v: View, mut c: Cursor, out: &mut [u32]) -> Cursor
    requires { There file.now v.second c (length out.old) }
    ensures { Batch (next file.now v) c (length out.old) result out.new }
{
    let mut i: usize = 0;
    while i < out.len() {
        let m = fill_run(out, i, c);
        c = past_there(file, v, c, (m - 1) as u32);
        let s = along_page(file, v.second as usize, v.step, c, out, i + m);
        c = s.c;
        i = s.filled;
    }
    c
}
