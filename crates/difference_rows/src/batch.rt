// The positions from a cursor on, a batch at a time.
ghost use Rattle.std.specs.Prelude.{◌≡◌, ◌+◌, ◌-◌, ◌≤◌, true, length};
ghost use Rattle.differences.specs.Walk.{plain, Room};
ghost use Rattle.difference_rows.specs.Steps.{jump_by, next_at, Filled};

use differences::groups::difference;
use parts::Cursor;
use wire::load_u32;

// By a difference: 0 is the next jump; the jumps begin at `start`.
pub fn jump_by(file: &[u8], start: u32, difference: u32, mut c: Cursor) -> Cursor
    ensures { result ≡ jump_by file.now start difference c }
{
    c.rank = c.rank.wrapping_add(1);
    if difference == 0 {
        c.at = load_u32(file, start as usize + 4 * c.next as usize);
        c.next = c.next.wrapping_add(1);
        return c;
    }
    c.at = c.at.wrapping_add(difference);
    c
}

// By a difference, the next jump read in either case, so that a jump costs no mispredicted branch.
fn step_by(file: &[u8], start: u32, difference: u32, mut c: Cursor) -> Cursor
    ensures { result ≡ jump_by file.now start difference c }
{
    let jump = load_u32(file, start as usize + 4 * c.next as usize);
    c.rank = c.rank.wrapping_add(1);
    if difference != 0 {
        c.at = c.at.wrapping_add(difference);
        return c;
    }
    c.at = jump;
    c.next = c.next.wrapping_add(1);
    c
}

// Whether the differences of the n ranks after a rank are all there, of one or two bytes each.
pub fn all_there(file: &[u8], second: u32, width: u32, rank: u32, n: usize) -> bool
    ensures { result ≡ true → Room width second file.now (rank + n) }
{
    if width == 0 {
        return false;
    }
    if 2 < width {
        return false;
    }
    if 65536 < n {
        return false;
    }
    let end = rank as usize + n;
    if 4294967295 < end {
        return false;
    }
    second as usize + width as usize * end + width as usize <= file.len()
}

// The positions from the cursor on, one for each element. The differences, of one byte each, are all there.
fn each_u8(file: &[u8], start: u32, second: usize, mut c: Cursor, out: &mut [u32]) -> Cursor
    requires { Room 1 second file.now (c.rank + length out.old) }
    ensures { Filled (next_at 1 start second file.now) c 0 (length out.old) out.old result out.new }
{
    for p in out.iter_mut() {
        *p = c.at;
        let d = difference(file, second, c.rank as usize + 1, 1);
        c = step_by(file, start, d, c);
    }
    c
}

// Whether no jump is among the 16 differences after rank r, of one byte each. Nothing is counted, so that one comparison tells of all.
fn no_jump(file: &[u8], second: usize, r: usize) -> bool
    requires { Room 1 second file.now (r + 16) }
    ensures { result ≡ plain 1 second file.now r 16 }
{
    let mut near = true;
    for k in 0..16 {
        near = (difference(file, second, r + k + 1, 1) != 0) & near;
    }
    near
}

// The same for 16 elements. Where no jump is among the differences they are only added.
fn block_u8(file: &[u8], start: u32, second: usize, mut c: Cursor, out: &mut [u32]) -> Cursor
    requires { Room 1 second file.now (c.rank + 16) × (length out.old ≡ 16) }
    ensures { Filled (next_at 1 start second file.now) c 0 16 out.old result out.new }
{
    let rank = c.rank as usize;
    if !no_jump(file, second, rank) {
        return each_u8(file, start, second, c, out);
    }
    let mut at = c.at;
    for k in 0..16 {
        out[k] = at;
        at = at.wrapping_add(difference(file, second, rank + k + 1, 1));
    }
    c.rank += 16;
    c.at = at;
    c
}

// All elements, in blocks of 16.
pub fn along_u8(file: &[u8], start: u32, second: usize, mut c: Cursor, out: &mut [u32]) -> Cursor
    requires { Room 1 second file.now (c.rank + length out.old) }
    ensures { Filled (next_at 1 start second file.now) c 0 (length out.old) out.old result out.new }
{
    let n = out.len();
    let mut i: usize = 0;
    // By hand: after a loop over `chunks_exact_mut` a proof does not know what the chunks hold.
    while 16 <= n - i {
        c = block_u8(file, start, second, c, &mut out[i..i + 16]);
        i += 16;
    }
    each_u8(file, start, second, c, &mut out[i..])
}

// The same for differences of two bytes, rank by rank: 16 of them are too many for one comparison, and a jump, behind more than 65535 cells, is so rare that
// its branch is foretold.
pub fn along_u16(file: &[u8], start: u32, second: usize, mut c: Cursor, out: &mut [u32]) -> Cursor
    requires { Room 2 second file.now (c.rank + length out.old) }
    ensures { Filled (next_at 2 start second file.now) c 0 (length out.old) out.old result out.new }
{
    for p in out.iter_mut() {
        *p = c.at;
        let d = difference(file, second, c.rank as usize + 1, 2);
        c = jump_by(file, start, d, c);
    }
    c
}
