// Positions into the first part, 4 bytes each.
ghost use Rattle.std.specs.Prelude.{◌≡◌, ◌+◌, ◌≤◌, true, length};
ghost use Rattle.format.specs.Positions.{positions_kind};
ghost use Rattle.parts.specs.Encoder.{taken_all_by};
ghost use Rattle.parts.specs.Batch.{Along, RoomAll, put_all_by};
ghost use Rattle.positions.specs.Coding.{coder};

use parts::encode::move_on;
use parts::{Encoder, Sizes};
use stores::put_u32;

// The encoder after the positions, with nothing put out.
pub fn take_all(width: u32, step: u32, e: Encoder, ps: &[u32]) -> Encoder
    requires { ((positions_kind width step).allowed ≡ true) × Along e ps.now }
    ensures { result ≡ taken_all_by (coder width step) e ps.now }
{
    let n = ps.len();
    if n == 0 {
        return e;
    }
    let last = ps[n - 1];
    Encoder {
        rank: e.rank + n as u32,
        last,
        left: e.left,
        base: e.base,
        cells: e.cells,
        empty: e.empty,
        first: e.first + 4 * n,
        second: e.second,
        fits: e.fits,
    }
}

// The positions put out; the encoder after them.
pub fn put_all(dst: &mut [u8], width: u32, step: u32, e: Encoder, ps: &[u32]) -> Encoder
    requires { ((positions_kind width step).allowed ≡ true) × Along e ps.now × RoomAll (coder width step) e ps.now (length dst.old) }
    ensures { (result ≡ taken_all_by (coder width step) e ps.now) × (dst.new ≡ put_all_by (coder width step) dst.old e ps.now) }
{
    let mut at = e;
    for &p in ps {
        put_u32(dst, at.first, p);
        at = move_on(at, p, at.first + 4, at.second);
    }
    at
}

// The sizes of the file.
pub fn sizes(width: u32, step: u32, e: Encoder) -> Sizes
    requires { ((positions_kind width step).allowed ≡ true) × (e.rank ≤ 16777216) × (e.first ≤ 268435456) × (e.second ≤ 134217728) }
    ensures { result ≡ (coder width step).sizes e }
{
    let first = e.first as u32;
    Sizes {
        words: e.rank,
        firsts: first / 4,
        seconds: 0,
        first,
        second: e.second as u32,
    }
}
