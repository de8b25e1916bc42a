// A walk along the stored positions.
ghost use Rattle.std.specs.Prelude.{◌≡◌, ◌-◌, ◌<◌, length};
ghost use Rattle.parts.specs.Cursor.{Batch};
ghost use Rattle.parts.specs.Walks.{sought, Climbs};
ghost use Rattle.jump_walk.specs.Steps.{next, OnWay};

use difference_rows::batch::{all_there, along_u8, along_u16, jump_by};
use differences::walk::{Place, Reached, walk};
use format::{Position, View};
use parts::Cursor;
use parts::walk::entry_of;

// The cursor at the next rank.
pub fn next(file: &[u8], v: View, c: Cursor) -> Cursor
    ensures { result ≡ next file.now v c }
{
    let rank = c.rank.wrapping_add(1);
    jump_by(file, v.start, entry_of(file, v, rank), c)
}

// The positions from the cursor on, one for each element, over any bytes.
fn each(file: &[u8], v: View, mut c: Cursor, out: &mut [u32]) -> Cursor
    ensures { Batch (next file.now v) c (length out.old) result out.new }
{
    for p in out.iter_mut() {
        *p = c.at;
        c = next(file, v, c);
    }
    c
}

// The positions from the cursor on, one for each element.
pub fn positions(file: &[u8], v: View, mut c: Cursor, out: &mut [u32]) -> Cursor
    ensures { Batch (next file.now v) c (length out.old) result out.new }
{
    if !all_there(file, v.second, v.width, c.rank, out.len()) {
        return each(file, v, c, out);
    }
    if v.width == 1 {
        return along_u8(file, v.start, v.second as usize, c, out);
    }
    along_u16(file, v.start, v.second as usize, c, out)
}

// Over the 128 ranks after the cursor's at once where all are below p, as the last of them tells; else over none.
fn leap(file: &[u8], v: View, mut c: Cursor, p: u32) -> Cursor
    requires { Climbs (next file.now v) v.words c }
    ensures { OnWay (next file.now v) v.words p c result }
{
    let rank = c.rank as usize;
    if v.words as usize <= rank + 128 {
        return c;
    }
    if !all_there(file, v.second, v.width, c.rank, 128) {
        return c;
    }
    if rank + 1 < c.next as usize {
        return c;
    }
    let from = Place {
        rank,
        reached: Reached {
            position: c.at as usize,
            taken: c.next as usize,
        },
    };
    let place = walk(
        file,
        v.start,
        v.second as usize,
        v.width,
        from,
        rank + 128,
        None,
    );
    let t = place.reached;
    let at = t.position;
    if p as usize <= at {
        return c;
    }
    c.rank += 128;
    c.at = at as u32;
    c.next = t.taken as u32;
    c
}

// Over at most 128 ranks, one by one, at least over the next.
fn step_on(file: &[u8], v: View, c: Cursor, p: u32) -> Cursor
    requires { (c.rank < v.words) × (c.at < p) }
    ensures { OnWay (next file.now v) v.words p c result × (c.rank < result.rank) }
{
    let mut t = next(file, v, c);
    for _ in 1..128 {
        if v.words <= t.rank {
            return t;
        }
        if p <= t.at {
            return t;
        }
        t = next(file, v, t);
    }
    t
}

// Over a group of ranks, at once or one by one.
fn pass_over(file: &[u8], v: View, c: Cursor, p: u32) -> Cursor
    requires { (c.rank < v.words) × (c.at < p) × Climbs (next file.now v) v.words c }
    ensures { OnWay (next file.now v) v.words p c result × (c.rank < result.rank) }
{
    let t = leap(file, v, c, p);
    if t.rank != c.rank {
        return t;
    }
    step_on(file, v, c, p)
}

// On to the first position from p on, or past the last rank.
pub fn seek(file: &[u8], v: View, mut c: Cursor, p: Position) -> Cursor
    requires { Climbs (next file.now v) v.words c }
    ensures { result ≡ sought (next file.now v) v.words p.0 (v.words - c.rank) c }
{
    let wanted = p.0;
    while c.rank < v.words {
        if wanted <= c.at {
            return c;
        }
        c = pass_over(file, v, c, wanted);
    }
    c
}
