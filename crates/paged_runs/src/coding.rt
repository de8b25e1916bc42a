// Positions into level 0, to measure and to write. The upper levels are made of level 0 afterwards.
ghost use Rattle.std.specs.Prelude.{◌≡◌, ◌+◌, ◌≤◌, true, length};
ghost use Rattle.format.specs.Tools.{range};
ghost use Rattle.format.specs.PagedRuns.{pages_kind};
ghost use Rattle.stores.specs.Put.{put};
ghost use Rattle.parts.specs.Encoder.{taken_all_by, ended_by};
ghost use Rattle.parts.specs.Ready.{passed, Sound};
ghost use Rattle.parts.specs.Batch.{Along, RoomAll, put_all_by};
ghost use Rattle.parts.specs.Codes.{Standing};
ghost use Rattle.page_entries.specs.Coding.{coder};

use levels::put::put_levels;
use levels::sizes::upper_count;
use page_entries::batch::{BATCH, put_batch, put_each};
use page_entries::entry::{pages_put, pages_taken};
use parts::encode::grow;
use parts::{Encoder, Sizes};
use stores::put_pair;

// ---- many positions

// The encoder after the positions, with nothing put out.
pub fn take_all(width: u32, step: u32, e: Encoder, ps: &[u32]) -> Encoder
    requires { ((pages_kind width step).allowed ≡ true) × Along e ps.now }
    ensures { result ≡ taken_all_by (coder width step) e ps.now }
{
    let mut at = e;
    for &p in ps {
        at = pages_taken(step, at, p);
    }
    at
}

// The bytes that the positions add; the encoder after them.
pub fn put_all(dst: &mut [u8], width: u32, step: u32, e: Encoder, ps: &[u32]) -> Encoder
    requires { ((pages_kind width step).allowed ≡ true) × Along e ps.now × RoomAll (coder width step) e ps.now (length dst.old) }
    ensures { (result ≡ taken_all_by (coder width step) e ps.now) × (dst.new ≡ put_all_by (coder width step) dst.old e ps.now) }
{
    if ps.len() == 0 {
        return e;
    }
    if BATCH < ps.len() {
        return put_each(dst, step, e, ps);
    }
    put_batch(dst, step, e, ps)
}

// The bytes that n consecutive positions from p on add; the encoder after them.
pub fn put_run(dst: &mut [u8], width: u32, step: u32, e: Encoder, p: u32, n: u32) -> Encoder
    requires { ((pages_kind width step).allowed ≡ true) × (1 ≤ n) × Sound e × (passed e ≤ p) × (p + n ≤ 16777216)
        × RoomAll (coder width step) e (range p n) (length dst.old) }
    ensures { (result ≡ taken_all_by (coder width step) e (range p n)) × (dst.new ≡ put_all_by (coder width step) dst.old e (range p n)) }
{
    grow(pages_put(dst, step, e, p), n - 1)
}

// ---- the end

// The encoder after the end, with nothing put out.
pub fn ended(width: u32, step: u32, mut e: Encoder) -> Encoder
    requires { Sound e }
    ensures { result ≡ ended_by (coder width step) e }
{
    if e.rank != 0 {
        e.second += 8;
    }
    e
}

// The entry of the last run.
pub fn finish(dst: &mut [u8], width: u32, step: u32, e: Encoder)
    requires { Sound e × (e.first + length ((coder width step).end_first e) ≤ length dst.old) × (e.second + length ((coder width step).end_second e) ≤ length dst.old) }
    ensures { dst.new ≡ put (put dst.old e.first ((coder width step).end_first e)) e.second ((coder width step).end_second e) }
{
    if e.rank == 0 {
        return;
    }
    let end = e.last + 1;
    put_pair(dst, e.second, end - e.cells, end - e.rank - e.empty);
}

// The sizes after the end: the upper levels have yet to be put.
pub fn sizes(width: u32, step: u32, e: Encoder) -> Sizes
    requires { ((pages_kind width step).allowed ≡ true) × (e.rank ≤ 16777216) × (e.first ≤ 268435456) × (e.second ≤ 134217728) }
    ensures { result ≡ (coder width step).sizes e }
{
    let second = e.second as u32;
    let runs = second / 8;
    let upper = upper_count(step, runs);
    Sizes {
        words: e.rank,
        firsts: upper,
        seconds: runs,
        first: 8 * upper,
        second,
    }
}

// The first part, made of the second, which stands in dst behind the room for it.
pub fn put_derived(dst: &mut [u8], width: u32, step: u32, z: Sizes, start: usize)
    requires { ((pages_kind width step).allowed ≡ true) × (start ≤ 4294967296) × Standing (coder width step) (pages_kind width step) z start dst.old }
    ensures { dst.new ≡ (coder width step).derived z start dst.old }
{
    put_levels(dst, start, step, z.seconds, start + z.first as usize);
}
