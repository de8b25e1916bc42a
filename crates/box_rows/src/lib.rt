// The words of a box of a picture in row order, from an accepted file. Positions never fall, so a cursor goes along the stored cells once.
#![tactic(auto)]

ghost use Rattle.std.specs.Prelude.{◌≡◌, true, ◌+◌, ◌*◌, ◌≤◌, ◌<◌, length, drop};
ghost use Rattle.format.specs.Bytes.{numbers_of};
ghost use Rattle.format.specs.Answers.{leaves};
ghost use Rattle.format.specs.Accepted.{dimensions_of};
ghost use Rattle.format.specs.Box.{box_allowed, box_words};
ghost use Rattle.format.specs.Picture.{most_dimensions};
ghost use Rattle.stores.specs.Put.{put};
ghost use Rattle.parts.specs.Holds.{ViewOf};
ghost use Rattle.box_region.specs.Bounds.{box_count};
ghost use Rattle.box_rows.specs.Filling.{RowGoes, RowFilled, BoxGoes, BoxFilled};

use box_region::region::{Region, long_rows};
use format::{Coordinates, DIMS, Dimensions, Position, RankAnswer, View};
use parts::Cursor;
use row_seek::resume::{begin, empty_ahead, rank_from, stored_ahead};
use wire::get_u32;

// How far a box is put out: the cursor, and the words that the destination has.
#[derive(Clone, Copy)]
pub struct Filled {
    pub cursor: Cursor,
    pub words: usize,
}

// The n words of the file from an offset on become the elements from an index on.
fn copy_words(file: &[u8], at: usize, dst: &mut [u32], from: usize, n: usize)
    requires { (from + n ≤ length dst.old) × (at + 4 * n ≤ length file.now) }
    ensures { dst.new ≡ put dst.old from (numbers_of 4 n (drop at file.now)) }
{
    for i in 0..n {
        dst[from + i] = get_u32(file, at + 4 * i);
    }
}

// The words of n cells from a position on: those of the stored cells that are known to follow, or E up to the next stored cell.
fn put_row(file: &[u8], v: View, s: Filled, from: u32, n: u32, dst: &mut [u32]) -> Filled
    requires { RowGoes file.now v s from n (length dst.old) }
    ensures { RowFilled file.now v s from n dst.old result dst.new }
{
    let words = v.place as usize;
    let mut c = s.cursor;
    let mut p = from;
    let mut k = s.words;
    let end = k + n as usize;
    while k < end {
        let sought = rank_from(file, v, c, Position(p));
        c = sought.cursor;
        let answer = sought.answer;
        let RankAnswer::Rank(rank) = answer else {
            let m = empty_ahead(v, c, p, end - k);
            dst[k..k + m].fill(v.empty);
            k += m;
            p += m as u32;
            continue;
        };
        let m = stored_ahead(v, c, (end - k) as u32);
        copy_words(file, words + 4 * rank.0 as usize, dst, k, m as usize);
        k += m as usize;
        p += m;
    }
    Filled {
        cursor: c,
        words: k,
    }
}

// The words of the box in the dimensions from i on; p is the position of the coordinates before.
fn put_from(
    file: &[u8],
    v: View,
    extents: Coordinates,
    low: Coordinates,
    high: Coordinates,
    i: usize,
    p: u32,
    mut s: Filled,
    dst: &mut [u32],
) -> Filled
    requires { (i < most_dimensions) × BoxGoes file.now v (drop i extents) (drop i low) (drop i high) p s (length dst.old) }
    ensures { BoxFilled file.now v (drop i extents) (drop i low) (drop i high) p s dst.old result dst.new }
{
    let before = p * extents[i];
    let first = low[i];
    let last = high[i];
    if i + 1 == DIMS {
        return put_row(file, v, s, before + first, last - first + 1, dst);
    }
    // Not `first..=last`, whose loop ends in two places to prove.
    for a in first..last + 1 {
        s = put_from(file, v, extents, low, high, i + 1, before + a, s, dst);
    }
    s
}

// The words of an allowed box into the destination's first elements.
pub fn put_box(
    file: &[u8],
    v: View,
    d: Dimensions,
    low: Coordinates,
    high: Coordinates,
    dst: &mut [u32],
)
    requires { ViewOf file.now v × (d ≡ dimensions_of file.now) × (box_allowed d low high ≡ true) × (box_count d.extents low high ≤ length dst.old) }
    ensures { dst.new ≡ leaves 0 (box_words file.now low high) dst.old }
{
    let all = d.extents;
    let r = long_rows(Region {
        extents: all,
        low: low,
        high: high,
    });
    let extents = r.extents;
    let from = r.low;
    let to = r.high;
    let s = Filled {
        cursor: begin(file, v),
        words: 0,
    };
    put_from(file, v, extents, from, to, 0, 0, s, dst);
}
