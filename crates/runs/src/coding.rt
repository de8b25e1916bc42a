// The encoder of kind 1: a pair for each run, put out where the run ends.
ghost use Rattle.std.specs.Prelude.{◌≡◌, ◌+◌, ◌≤◌, true, length};
ghost use Rattle.format.specs.Tools.{range};
ghost use Rattle.format.specs.Runs.{runs_kind};
ghost use Rattle.stores.specs.Put.{put};
ghost use Rattle.parts.specs.Encoder.{taken_all_by, ended_by};
ghost use Rattle.parts.specs.Ready.{passed, Sound};
ghost use Rattle.parts.specs.Batch.{Along, RoomAll, put_all_by};
ghost use Rattle.run_pairs.specs.Coding.{coder};

use parts::encode::grow;
use parts::{Encoder, Sizes};
use run_pairs::pair::put_one;
use stores::put_pair;

// ---- many positions

// The encoder after the positions, with nothing put out.
pub fn take_all(width: u32, step: u32, e: Encoder, ps: &[u32]) -> Encoder
    requires { ((runs_kind width step).allowed ≡ true) × Along e ps.now }
    ensures { result ≡ taken_all_by (coder width step) e ps.now }
{
    run_pairs::batch::take_all(e, ps)
}

// The bytes that the positions add; the encoder after them.
pub fn put_all(dst: &mut [u8], width: u32, step: u32, e: Encoder, ps: &[u32]) -> Encoder
    requires { ((runs_kind width step).allowed ≡ true) × Along e ps.now × RoomAll (coder width step) e ps.now (length dst.old) }
    ensures { (result ≡ taken_all_by (coder width step) e ps.now)
        × (dst.new ≡ put_all_by (coder width step) dst.old e ps.now) }
{
    run_pairs::batch::put_all(dst, e, ps)
}

// The bytes that n consecutive positions from p on add; the encoder after them.
pub fn put_run(dst: &mut [u8], width: u32, step: u32, e: Encoder, p: u32, n: u32) -> Encoder
    requires { ((runs_kind width step).allowed ≡ true) × (1 ≤ n) × Sound e × (passed e ≤ p) × (p + n ≤ 16777216)
        × RoomAll (coder width step) e (range p n) (length dst.old) }
    ensures { (result ≡ taken_all_by (coder width step) e (range p n))
        × (dst.new ≡ put_all_by (coder width step) dst.old e (range p n)) }
{
    grow(put_one(dst, e, p), n - 1)
}

// ---- the end

// The encoder after the end, with nothing put out.
pub fn ended(width: u32, step: u32, mut e: Encoder) -> Encoder
    requires { Sound e }
    ensures { result ≡ ended_by (coder width step) e }
{
    if e.rank != 0 {
        e.first += 8;
    }
    e
}

// The bytes at the end: the pair of the last run.
pub fn finish(dst: &mut [u8], width: u32, step: u32, e: Encoder)
    requires { Sound e × (e.first + length ((coder width step).end_first e) ≤ length dst.old)
        × (e.second + length ((coder width step).end_second e) ≤ length dst.old) }
    ensures { dst.new ≡ put (put dst.old e.first ((coder width step).end_first e)) e.second ((coder width step).end_second e) }
{
    if e.rank != 0 {
        put_pair(dst, e.first, e.last, e.last + 1 - e.rank);
    }
}

// The counts and the bytes of the parts, by an encoder that measured from 0 and took the end.
pub fn sizes(width: u32, step: u32, e: Encoder) -> Sizes
    requires { ((runs_kind width step).allowed ≡ true) × (e.rank ≤ 16777216) × (e.first ≤ 268435456) × (e.second ≤ 134217728) }
    ensures { result ≡ (coder width step).sizes e }
{
    let first = e.first as u32;
    let second = e.second as u32;
    Sizes {
        words: e.rank,
        firsts: first / 8,
        seconds: 0,
        first,
        second,
    }
}
