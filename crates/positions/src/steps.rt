// Along the positions, an entry for each rank.
ghost use Rattle.std.specs.Prelude.{◌≡◌, true, length};
ghost use Rattle.parts.specs.Cursor.{Batch};
ghost use Rattle.positions.specs.Steps.{next, There};

use format::View;
use parts::Cursor;
use wire::{get_u32, load_u32};

// The next rank.
pub fn next(file: &[u8], v: View, mut c: Cursor) -> Cursor
    ensures { result ≡ next file.now v c }
{
    c.rank = c.rank.wrapping_add(1);
    c.at = load_u32(file, v.start as usize + 4 * c.rank as usize);
    c
}

// Whether the entries of the n ranks after the cursor's are all there.
fn all_there(file: &[u8], v: View, c: Cursor, n: usize) -> bool
    ensures { result ≡ true → There file.now v c n }
{
    if 65536 < n {
        return false;
    }
    let end = c.rank as usize + n;
    if 4294967295 < end {
        return false;
    }
    v.start as usize + 4 * end + 4 <= file.len()
}

// The positions of the ranks from the cursor on where the next entries are all there: its own, and the entries as they stand.
fn along(file: &[u8], v: View, mut c: Cursor, out: &mut [u32]) -> Cursor
    requires { There file.now v c (length out.old) }
    ensures { Batch (next file.now v) c (length out.old) result out.new }
{
    let n = out.len();
    if n == 0 {
        return c;
    }
    let place = v.start as usize + 4 * c.rank as usize;
    out[0] = c.at;
    for i in 1..n {
        out[i] = get_u32(file, place + 4 * i);
    }
    c.rank += n as u32;
    c.at = get_u32(file, place + 4 * n);
    c
}

// The positions of the ranks from the cursor on, as many as `out` has elements; the cursor after them.
pub fn positions(file: &[u8], v: View, mut c: Cursor, out: &mut [u32]) -> Cursor
    ensures { Batch (next file.now v) c (length out.old) result out.new }
{
    if all_there(file, v, c, out.len()) {
        return along(file, v, c, out);
    }
    for x in out.iter_mut() {
        *x = c.at;
        c = next(file, v, c);
    }
    c
}
