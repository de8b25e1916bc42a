// The cursor's steps along the ranks. Any bytes, view and cursor are safe.
ghost use Rattle.std.specs.Prelude.{◌≡◌, length};
ghost use Rattle.parts.specs.Cursor.{Batch};
ghost use Rattle.base_groups.specs.Steps.{next, SameBase};

use base_groups::steps::{base_of, offset_from, ranks_ahead};
use format::View;
use offsets::sums::{all_there, sums};
use parts::Cursor;

// The cursor at the next rank.
pub fn next(file: &[u8], v: View, c: Cursor) -> Cursor
    ensures { result ≡ next file.now v c }
{
    offset_from(file, v, base_of(file, v, c))
}

// The positions of the ranks from the cursor on, all of its base but for its own; the cursor after them.
fn along(file: &[u8], v: View, mut c: Cursor, out: &mut [u32]) -> Cursor
    requires { SameBase file.now v c (length out.old) }
    ensures { Batch (next file.now v) c (length out.old) result out.new }
{
    let more = out.len() - 1;
    if 0 < more {
        sums(file, v.width, v.second, c.rank, c.base, out);
    }
    out[0] = c.at;
    c.rank += more as u32;
    c.used += more as u32;
    next(file, v, c)
}

// The positions of the ranks from the cursor on, as many as `out` has elements; the cursor after them. After one test they go base by base.
pub fn positions(file: &[u8], v: View, mut c: Cursor, out: &mut [u32]) -> Cursor
    ensures { Batch (next file.now v) c (length out.old) result out.new }
{
    let there = all_there(file, v.width, v.second, c.rank, out.len());
    let mut i: usize = 0;
    while i < out.len() {
        let end = i + ranks_ahead(there, v.step, c.used, out.len() - i);
        c = along(file, v, c, &mut out[i..end]);
        i = end;
    }
    c
}
