// Many positions: one at a time, or the pairs of a batch by the ends of its runs.
ghost use Rattle.std.specs.Prelude.{◌≡◌, ◌+◌, ◌*◌, ◌≤◌, length};
ghost use Rattle.format.specs.Tools.{Below};
ghost use Rattle.laws.proofs.Stored.{Rising};
ghost use Rattle.stores.specs.Put.{put};
ghost use Rattle.parts.specs.Encoder.{taken_all_by};
ghost use Rattle.parts.specs.Batch.{Along, RoomAll, put_all_by};
ghost use Rattle.rises.specs.Far.{far, ends_of};
ghost use Rattle.run_pairs.specs.Coding.{runs_coder, further, end_pairs};

use crate::pair::{put_one, take_one};
use parts::Encoder;
use rises::far::{count_far, list_ends};
use stores::put_pair;

// The most positions whose run ends are listed at a time: a caller's largest batch.
const BATCH: usize = 1024;

// The encoder after n more positions, of which `last` is the last, where so many runs end.
fn further(mut e: Encoder, n: u32, last: u32, ends: usize) -> Encoder
    requires { (e.rank + n ≤ 16777216) × (e.first ≤ 8589934592) × (ends ≤ 16777216) }
    ensures { result ≡ further e n last ends }
{
    e.rank += n;
    e.last = last;
    e.first += 8 * ends;
    e
}

// The encoder after the positions, with nothing put out.
pub fn take_all(e: Encoder, ps: &[u32]) -> Encoder
    requires { Along e ps.now }
    ensures { result ≡ taken_all_by runs_coder e ps.now }
{
    let n = ps.len();
    if n == 0 {
        return e;
    }
    let ends = count_far(ps, 1);
    further(take_one(e, ps[0]), (n - 1) as u32, ps[n - 1], ends as usize)
}

// The pairs of the runs that end at the indices `ends` of ps, whose first position has the rank `rank`, one after the other from `at` on.
fn put_pairs(dst: &mut [u8], at: usize, rank: u32, ps: &[u32], ends: &[u32])
    requires { (1 ≤ length ps.now) × Rising rank 16777216 ps.now × Below (length ps.now) ends.now × (at + 8 * length ends.now ≤ length dst.old) }
    ensures { dst.new ≡ put dst.old at (end_pairs rank ps.now ends.now) }
{
    for (t, &end) in ends.iter().enumerate() {
        let last = ps[end as usize];
        put_pair(dst, at + 8 * t, last, last - (rank + end));
    }
}

// The pairs of all the runs that end among the positions of a batch: the ends are listed first, without a branch. Their number.
fn put_ends(dst: &mut [u8], at: usize, rank: u32, ps: &[u32]) -> usize
    requires { (1 ≤ length ps.now) × (length ps.now ≤ 1024) × Rising rank 16777216 ps.now × (at + 8 * length (ends_of ps.now) ≤ length dst.old) }
    ensures { (result ≡ far 1 ps.now) × (result ≤ 1024)
        × (dst.new ≡ put dst.old at (end_pairs rank ps.now (ends_of ps.now))) }
{
    let mut ends = [0u32; BATCH];
    let n = list_ends(ps, &mut ends);
    put_pairs(dst, at, rank, ps, &ends[..n]);
    n
}

// The bytes that the positions add, one position at a time; the encoder after them.
fn put_each(dst: &mut [u8], e: Encoder, ps: &[u32]) -> Encoder
    requires { Along e ps.now × RoomAll runs_coder e ps.now (length dst.old) }
    ensures { (result ≡ taken_all_by runs_coder e ps.now) × (dst.new ≡ put_all_by runs_coder dst.old e ps.now) }
{
    let mut at = e;
    for &p in ps {
        at = put_one(dst, at, p);
    }
    at
}

// The bytes that the positions add; the encoder after them.
pub fn put_all(dst: &mut [u8], e: Encoder, ps: &[u32]) -> Encoder
    requires { Along e ps.now × RoomAll runs_coder e ps.now (length dst.old) }
    ensures { (result ≡ taken_all_by runs_coder e ps.now) × (dst.new ≡ put_all_by runs_coder dst.old e ps.now) }
{
    let n = ps.len();
    if n == 0 {
        return e;
    }
    if BATCH < n {
        return put_each(dst, e, ps);
    }
    let at = put_one(dst, e, ps[0]);
    let ends = put_ends(dst, at.first, e.rank, ps);
    further(at, (n - 1) as u32, ps[n - 1], ends)
}
