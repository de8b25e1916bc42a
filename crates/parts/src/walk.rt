// What the walks of the kinds share: the entry of a rank, cells along a run, positions in a buffer.
ghost use Rattle.std.specs.Prelude.{◌≡◌, ◌+◌, ◌-◌, ◌^◌, ◌<◌, ◌≤◌, length};
ghost use Rattle.parts.specs.Cursor.{before, entry_of, along_by};
ghost use Rattle.parts.specs.Stretch.{Filled, Stretch};

use super::{Cursor, Encoder};
use format::View;
use wire::{load_u8, load_u16};

// Where a walk along the ranks of a file into an encoder stands.
#[derive(Clone, Copy)]
pub struct Walk {
    pub c: Cursor,
    pub e: Encoder,
}

// Before rank 0, where rank, position and last cell are -1.
pub fn before_first() -> Cursor
    ensures { result ≡ before }
{
    Cursor {
        rank: u32::MAX,
        at: u32::MAX,
        next: 0,
        last: 0,
        used: u32::MAX,
        base: 0,
        empty: 0,
    }
}

// The entry of a rank in a second part of 1 or 2 bytes for each rank; 0 for any other width.
pub fn entry_of(file: &[u8], v: View, rank: u32) -> u32
    ensures { result ≡ entry_of file.now v rank }
{
    let second = v.second as usize;
    let width = v.width;
    match width {
        1 => load_u8(file, second + rank as usize),
        2 => load_u16(file, second + 2 * rank as usize),
        _ => 0,
    }
}

// The cells of the run from the cursor on, at most `left`; 1 on unfit bytes, where the cursor stands past the run.
pub fn stretch(c: Cursor, left: u32) -> u32
    ensures { (result ≤ left) × (0 < left → 0 < result) × (1 < result → c.at + result ≤ c.last + 1) }
{
    if left <= 1 {
        return left;
    }
    // Tested apart, and foretold: along runs of one cell nothing waits for the cursor
    if c.last <= c.at {
        return 1;
    }
    (left - 1).min(c.last - c.at) + 1
}

// The cursor k cells further in its run.
pub fn along_run(mut c: Cursor, k: u32) -> Cursor
    ensures { result ≡ along_by k c }
{
    c.rank = c.rank.wrapping_add(k);
    c.at = c.at.wrapping_add(k);
    c
}

// n consecutive positions from p on, in the elements from an index on.
fn fill_from(out: &mut [u32], from: usize, n: usize, p: u32)
    requires { from + n ≤ length out.old }
    ensures { Filled p from n out.old out.new }
{
    let mut q = p;
    for x in &mut out[from..from + n] {
        *x = q;
        q = q.wrapping_add(1);
    }
}

// The positions from the cursor to the end of its run, as far as there is room, and how many they are; that of the cursor alone where it stands past
// the end. A short run fills 8 elements, without a branch on its length: those past it are for the next run.
pub fn fill_run(out: &mut [u32], from: usize, c: Cursor) -> usize
    requires { 1 + from ≤ length out.old }
    ensures { Stretch c from result out.old out.new }
{
    let left = out.len() - from;
    let cells = c.last.saturating_sub(c.at) as usize + 1;
    if cells <= 8 && 8 <= left {
        fill_from(out, from, 8, c.at);
        return cells;
    }
    let m = cells.min(left);
    fill_from(out, from, m, c.at);
    m
}

// The ranks of a caller's next batch, at most 512, where so many are left.
pub fn batch_of(left: u32) -> usize
    ensures { (result ≤ left) × (result ≤ 512) × (0 < left → 0 < result) }
{
    left.min(512) as usize
}
