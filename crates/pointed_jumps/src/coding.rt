// Positions into the two parts, to measure and to write, as kind 4 has them. The pointers are made of the differences afterwards.
ghost use Rattle.std.specs.Prelude.{◌≡◌, true, ◌+◌, ◌≤◌, length};
ghost use Rattle.format.specs.PointedJumps.{pointed_kind};
ghost use Rattle.parts.specs.Encoder.{taken_all_by};
ghost use Rattle.parts.specs.Batch.{put_all_by, Along, RoomAll};
ghost use Rattle.parts.specs.Codes.{Standing};
ghost use Rattle.pointed_jumps.specs.Coding.{coder};

use super::pointers::{pointer_count, pointers_at};
use differences::after::jump_after;
use jump_entries::coding;
use parts::{Encoder, Sizes};
use stores::put_u32;

// The encoder after the positions, with nothing put out.
pub fn take_all(width: u32, step: u32, e: Encoder, ps: &[u32]) -> Encoder
    requires { ((pointed_kind width step).allowed ≡ true) × Along e ps.now }
    ensures { result ≡ taken_all_by (coder width step) e ps.now }
{
    coding::take_all(width, e, ps)
}

// The bytes that the positions add; the encoder after them.
pub fn put_all(dst: &mut [u8], width: u32, step: u32, e: Encoder, ps: &[u32]) -> Encoder
    requires { ((pointed_kind width step).allowed ≡ true) × Along e ps.now × RoomAll (coder width step) e ps.now (length dst.old) }
    ensures { (result ≡ taken_all_by (coder width step) e ps.now) × (dst.new ≡ put_all_by (coder width step) dst.old e ps.now) }
{
    coding::put_all(dst, width, e, ps)
}

// What the header counts, after the end.
pub fn sizes(width: u32, step: u32, e: Encoder) -> Sizes
    requires { ((pointed_kind width step).allowed ≡ true) × (e.rank ≤ 16777216) × (e.first ≤ 268435456) × (e.second ≤ 134217728) }
    ensures { result ≡ (coder width step).sizes e }
{
    let first = e.first as u32;
    let firsts = first / 4;
    Sizes {
        words: e.rank,
        firsts,
        seconds: e.rank,
        first,
        second: e.second as u32 + 4 * pointer_count(firsts, step),
    }
}

// The pointers behind the differences that stand in dst, the first part from `start` on: each from the one before.
pub fn put_derived(dst: &mut [u8], width: u32, step: u32, z: Sizes, start: usize)
    requires { ((pointed_kind width step).allowed ≡ true) × (start ≤ 4294967296) × Standing (coder width step) (pointed_kind width step) z start dst.old }
    ensures { dst.new ≡ (coder width step).derived z start dst.old }
{
    let count = pointer_count(z.firsts, step) as usize;
    if count == 0 {
        return;
    }
    let second = start + z.first as usize;
    let at = pointers_at(second, width, z.words);
    let last = z.words as usize - 1;
    put_u32(dst, at, 0);
    let mut rank: usize = 0;
    for k in 1..count {
        rank = jump_after(dst, second, width, rank, step as usize, last);
        put_u32(dst, at + 4 * k, rank as u32);
    }
}
