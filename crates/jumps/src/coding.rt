// Positions into the two parts: to measure, and to write.
ghost use Rattle.std.specs.Prelude.{◌≡◌, true, ◌≤◌, length};
ghost use Rattle.format.specs.Jumps.{jumps_kind};
ghost use Rattle.parts.specs.Encoder.{taken_all_by};
ghost use Rattle.parts.specs.Batch.{put_all_by, Along, RoomAll};
ghost use Rattle.jumps.specs.Coding.{coder};

use jump_entries::coding;
use parts::{Encoder, Sizes};

// The encoder after the positions, with nothing put out.
pub fn take_all(width: u32, step: u32, e: Encoder, ps: &[u32]) -> Encoder
    requires { ((jumps_kind width step).allowed ≡ true) × Along e ps.now }
    ensures { result ≡ taken_all_by (coder width step) e ps.now }
{
    coding::take_all(width, e, ps)
}

// The bytes that the positions add; the encoder after them.
pub fn put_all(dst: &mut [u8], width: u32, step: u32, e: Encoder, ps: &[u32]) -> Encoder
    requires { ((jumps_kind width step).allowed ≡ true) × Along e ps.now × RoomAll (coder width step) e ps.now (length dst.old) }
    ensures { (result ≡ taken_all_by (coder width step) e ps.now) × (dst.new ≡ put_all_by (coder width step) dst.old e ps.now) }
{
    coding::put_all(dst, width, e, ps)
}

// What the header counts, after the end.
pub fn sizes(width: u32, step: u32, e: Encoder) -> Sizes
    requires { ((jumps_kind width step).allowed ≡ true) × (e.rank ≤ 16777216) × (e.first ≤ 268435456) × (e.second ≤ 134217728) }
    ensures { result ≡ (coder width step).sizes e }
{
    let first = e.first as u32;
    Sizes {
        words: e.rank,
        firsts: first / 4,
        seconds: e.rank,
        first,
        second: e.second as u32,
    }
}
