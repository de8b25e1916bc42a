// Stored positions into the two parts, group by group: to measure, and to write.
ghost use Rattle.std.specs.Prelude.{◌≡◌, true, ◌+◌, ◌≤◌, length};
ghost use Rattle.format.specs.BaseOffset.{based_kind};
ghost use Rattle.parts.specs.Encoder.{taken_all_by};
ghost use Rattle.parts.specs.Batch.{Along, RoomAll, put_all_by};
ghost use Rattle.base_groups.specs.Coding.{coder};

use base_groups::coding::{put_group, served, take_group};
use parts::{Encoder, Sizes};

// The encoder after the positions, with nothing put out.
pub fn take_all(width: u32, step: u32, mut e: Encoder, ps: &[u32]) -> Encoder
    requires { ((based_kind width step).allowed ≡ true) × Along e ps.now }
    ensures { result ≡ taken_all_by (coder width step) e ps.now }
{
    let mut rest = ps;
    while !rest.is_empty() {
        let (group, later) = rest.split_at(served(step, e.left, rest.len()));
        e = take_group(width, step, e, group);
        rest = later;
    }
    e
}

// The bytes that the positions add; the encoder after them.
pub fn put_all(dst: &mut [u8], width: u32, step: u32, mut e: Encoder, ps: &[u32]) -> Encoder
    requires { ((based_kind width step).allowed ≡ true) × Along e ps.now × RoomAll (coder width step) e ps.now (length dst.old) }
    ensures { (result ≡ taken_all_by (coder width step) e ps.now) × (dst.new ≡ put_all_by (coder width step) dst.old e ps.now) }
{
    let mut rest = ps;
    while !rest.is_empty() {
        let (group, later) = rest.split_at(served(step, e.left, rest.len()));
        e = put_group(dst, width, step, e, group);
        rest = later;
    }
    e
}

// The sizes of a file, by the encoder after the end.
pub fn sizes(width: u32, step: u32, e: Encoder) -> Sizes
    requires { ((based_kind width step).allowed ≡ true) × (e.rank ≤ 16777216) × (e.first ≤ 268435456) × (e.second ≤ 134217728) }
    ensures { result ≡ (coder width step).sizes e }
{
    let first = e.first as u32;
    Sizes {
        words: e.rank,
        firsts: first / 4,
        seconds: e.rank,
        first,
        second: e.second as u32,
    }
}
