// A cursor's base, and its offset from it. Any bytes, view and cursor are safe.
ghost use Rattle.std.specs.Prelude.{◌≡◌, min};
ghost use Rattle.base_groups.specs.Steps.{base_of, offset_from, ahead_of};

use format::View;
use parts::Cursor;
use parts::walk::entry_of;
use wire::load_u32;

// The base of the next rank: the same, or the next one.
pub fn base_of(file: &[u8], v: View, mut c: Cursor) -> Cursor
    ensures { result ≡ base_of file.now v c }
{
    if c.used < v.step {
        c.used += 1;
        return c;
    }
    c.used = 1;
    c.base = load_u32(file, v.start as usize + 4 * c.next as usize);
    c.next = c.next.wrapping_add(1);
    c
}

// The offset of the next rank from the base in p.
pub fn offset_from(file: &[u8], v: View, mut p: Cursor) -> Cursor
    ensures { result ≡ offset_from file.now v p }
{
    p.rank = p.rank.wrapping_add(1);
    p.at = p.base.wrapping_add(entry_of(file, v, p.rank));
    p
}

// How many of the next n ranks have the cursor's base, with the cursor's own; only that one where offsets are missing.
pub fn ranks_ahead(there: bool, step: u32, used: u32, n: usize) -> usize
    ensures { result ≡ min (ahead_of there step used) n }
{
    let ahead = if there {
        1 + step.saturating_sub(used) as usize
    } else {
        1
    };
    ahead.min(n)
}
