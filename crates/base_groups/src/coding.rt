// The positions of one base into the two parts: to measure, and to write.
ghost use Rattle.std.specs.Prelude.{◌≡◌, ◌-◌, ◌^◌, ◌≤◌, min, length, nat_le};
ghost use Rattle.format.specs.Tools.{both};
ghost use Rattle.parts.specs.Encoder.{taken_all_by};
ghost use Rattle.parts.specs.Ready.{Next};
ghost use Rattle.parts.specs.Batch.{RoomAll, put_all_by};
ghost use Rattle.base_groups.specs.Coding.{coder, due, opened, OneBase};

use offsets::put::put_offsets;
use parts::Encoder;
use parts::encode::limit;
use stores::put_u32;

// How many of n positions go to one base: those that it still serves, or all of a new one's.
pub fn served(step: u32, left: u32, n: usize) -> usize
    ensures { result ≡ min (due step left) n }
{
    let due = if left == 0 { step } else { left };
    (due as usize).min(n)
}

// The encoder with the base of p: its own, or p where none is left to serve it.
fn with_base(step: u32, mut e: Encoder, p: u32) -> Encoder
    requires { Next e p }
    ensures { result ≡ opened step e p }
{
    if e.left == 0 {
        e.left = step;
        e.base = p;
        e.first += 4;
    }
    e
}

// The encoder after the positions of one base. They rise, so the last offset is the largest.
pub fn take_group(width: u32, step: u32, mut e: Encoder, ps: &[u32]) -> Encoder
    requires { OneBase step e ps.now × (1 ≤ width) × (width ≤ 2) × (1 ≤ step) }
    ensures { result ≡ taken_all_by (coder width step) e ps.now }
{
    e = with_base(step, e, ps[0]);
    let n = ps.len();
    let last = ps[n - 1];
    Encoder {
        rank: e.rank + n as u32,
        last,
        left: e.left - n as u32,
        base: e.base,
        cells: e.cells,
        empty: e.empty,
        first: e.first,
        second: e.second + width as usize * n,
        fits: e.fits & (last - e.base <= limit(width)),
    }
}

// The bytes that the positions of one base add; the encoder after them.
pub fn put_group(dst: &mut [u8], width: u32, step: u32, e: Encoder, ps: &[u32]) -> Encoder
    requires { OneBase step e ps.now × RoomAll (coder width step) e ps.now (length dst.old) × (1 ≤ width) × (width ≤ 2) × (1 ≤ step) }
    ensures { (result ≡ taken_all_by (coder width step) e ps.now) × (dst.new ≡ put_all_by (coder width step) dst.old e ps.now) }
{
    if e.left == 0 {
        put_u32(dst, e.first, ps[0]);
    }
    let at = take_group(width, step, e, ps);
    put_offsets(dst, e.second, width, at.base, ps);
    at
}
