// Stored positions into the two parts of a file: to measure, and to write.
ghost use Rattle.std.specs.Prelude.{◌≡◌, true, ◌+◌, ◌≤◌, length};
ghost use Rattle.format.specs.Tools.{range};
ghost use Rattle.format.specs.Kinds.{codec, setting_allowed};
ghost use Rattle.stores.specs.Put.{put};
ghost use Rattle.parts.specs.Encoder.{ended_by};
ghost use Rattle.parts.specs.Ready.{passed, Sound};
ghost use Rattle.parts.specs.Batch.{Along, RoomAll, put_all_by};
ghost use Rattle.parts.specs.Codes.{Standing};
ghost use Rattle.kinds.specs.Steps.{stores_runs};
ghost use Rattle.kinds.specs.Coding.{coder, taken_all, derived, sized_by_ranks, counted_by};

use super::kind::Kind;
use format::Setting;
use parts::encode::begin;
use parts::{Encoder, Sizes};

// The encoder after the positions, with nothing put out.
pub fn take_all(s: Setting, e: Encoder, ps: &[u32]) -> Encoder
    requires { (setting_allowed s ≡ true) × Along e ps.now }
    ensures { result ≡ taken_all s e ps.now }
{
    match Kind::try_from(s.kind) {
        Ok(Kind::Runs) => runs::coding::take_all(s.width, s.step, e, ps),
        Ok(Kind::Positions) => positions::coding::take_all(s.width, s.step, e, ps),
        Ok(Kind::BaseOffset) => base_offset::coding::take_all(s.width, s.step, e, ps),
        Ok(Kind::Jumps) => jumps::coding::take_all(s.width, s.step, e, ps),
        Ok(Kind::PagedRuns) => paged_runs::coding::take_all(s.width, s.step, e, ps),
        Ok(Kind::PointedJumps) => pointed_jumps::coding::take_all(s.width, s.step, e, ps),
        Err(_) => e,
    }
}

// The bytes that the positions add; the encoder after them.
pub fn put_all(dst: &mut [u8], s: Setting, e: Encoder, ps: &[u32]) -> Encoder
    requires { (setting_allowed s ≡ true) × Along e ps.now × RoomAll (coder s) e ps.now (length dst.old) }
    ensures { (result ≡ taken_all s e ps.now) × (dst.new ≡ put_all_by (coder s) dst.old e ps.now) }
{
    match Kind::try_from(s.kind) {
        Ok(Kind::Runs) => runs::coding::put_all(dst, s.width, s.step, e, ps),
        Ok(Kind::Positions) => positions::coding::put_all(dst, s.width, s.step, e, ps),
        Ok(Kind::BaseOffset) => base_offset::coding::put_all(dst, s.width, s.step, e, ps),
        Ok(Kind::Jumps) => jumps::coding::put_all(dst, s.width, s.step, e, ps),
        Ok(Kind::PagedRuns) => paged_runs::coding::put_all(dst, s.width, s.step, e, ps),
        Ok(Kind::PointedJumps) => pointed_jumps::coding::put_all(dst, s.width, s.step, e, ps),
        Err(_) => e,
    }
}

// The encoder after the end, with nothing put out. Only kinds that store runs have something due at the end: the last run.
pub fn ended(s: Setting, e: Encoder) -> Encoder
    requires { (setting_allowed s ≡ true) × Sound e }
    ensures { result ≡ ended_by (coder s) e }
{
    let Ok(kind) = Kind::try_from(s.kind) else {
        return e;
    };
    match kind {
        Kind::Runs => runs::coding::ended(s.width, s.step, e),
        Kind::PagedRuns => paged_runs::coding::ended(s.width, s.step, e),
        _ => e,
    }
}

// The bytes at the end; none for a kind that stores no runs.
pub fn finish(dst: &mut [u8], s: Setting, e: Encoder)
    requires { (setting_allowed s ≡ true) × Sound e × (e.first + length ((coder s).end_first e) ≤ length dst.old) × (e.second + length ((coder s).end_second e) ≤ length dst.old) }
    ensures { dst.new ≡ put (put dst.old e.first ((coder s).end_first e)) e.second ((coder s).end_second e) }
{
    let Ok(kind) = Kind::try_from(s.kind) else {
        return;
    };
    match kind {
        Kind::Runs => runs::coding::finish(dst, s.width, s.step, e),
        Kind::PagedRuns => paged_runs::coding::finish(dst, s.width, s.step, e),
        _ => (),
    }
}

// The sizes of a file, by the encoder after the end.
pub fn sizes(s: Setting, e: Encoder) -> Sizes
    requires { (setting_allowed s ≡ true) × (e.rank ≤ 16777216) × (e.first ≤ 268435456) × (e.second ≤ 134217728) }
    ensures { result ≡ (coder s).sizes e }
{
    match Kind::try_from(s.kind) {
        Ok(Kind::Runs) => runs::coding::sizes(s.width, s.step, e),
        Ok(Kind::Positions) => positions::coding::sizes(s.width, s.step, e),
        Ok(Kind::BaseOffset) => base_offset::coding::sizes(s.width, s.step, e),
        Ok(Kind::Jumps) => jumps::coding::sizes(s.width, s.step, e),
        Ok(Kind::PagedRuns) => paged_runs::coding::sizes(s.width, s.step, e),
        Ok(Kind::PointedJumps) => pointed_jumps::coding::sizes(s.width, s.step, e),
        Err(_) => Sizes {
            words: 0,
            firsts: 0,
            seconds: 0,
            first: 0,
            second: 0,
        },
    }
}

// In a kind that stores runs: the bytes that n positions from p on add; the encoder after them.
pub fn put_run(dst: &mut [u8], s: Setting, e: Encoder, p: u32, n: u32) -> Encoder
    requires { (setting_allowed s ≡ true) × stores_runs s.kind × (1 ≤ n) × Sound e × (passed e ≤ p) × (p + n ≤ 16777216) × RoomAll (coder s) e (range p n) (length dst.old) }
    ensures { (result ≡ taken_all s e (range p n)) × (dst.new ≡ put_all_by (coder s) dst.old e (range p n)) }
{
    // By `return`: as the value of the match the encoder is copied, run by run
    match Kind::try_from(s.kind) {
        Ok(Kind::Runs) => return runs::coding::put_run(dst, s.width, s.step, e, p, n),
        _ => return paged_runs::coding::put_run(dst, s.width, s.step, e, p, n),
    }
}

// What is made of the parts that stand in dst, the first from `start` on: kind 5's upper levels, kind 6's pointers; nothing for the other kinds.
#[tactic(auto, using(crate::proofs::Laws::no_more))]
pub fn put_derived(dst: &mut [u8], s: Setting, z: Sizes, start: usize)
    requires { (setting_allowed s ≡ true) × (start ≤ 4294967296) × Standing (coder s) (codec s) z start dst.old }
    ensures { dst.new ≡ derived s z start dst.old }
{
    let Ok(kind) = Kind::try_from(s.kind) else {
        return;
    };
    match kind {
        Kind::PagedRuns => paged_runs::coding::put_derived(dst, s.width, s.step, z, start),
        Kind::PointedJumps => pointed_jumps::coding::put_derived(dst, s.width, s.step, z, start),
        _ => (),
    }
}

// Whether the sizes of a kind's file follow from the number of its ranks.
pub fn sized_by_ranks(kind: u32) -> bool
    ensures { result ≡ true → sized_by_ranks kind }
{
    matches!(Kind::try_from(kind), Ok(Kind::Positions))
}

// An encoder after the end, in a kind whose sizes follow from a count: of so many ranks, with so many runs.
pub fn counted(kind: u32, ranks: u32, entries: u32) -> Encoder
    ensures { result ≡ counted_by kind ranks entries }
{
    let mut e = begin(0, 0);
    e.rank = ranks;
    match Kind::try_from(kind) {
        Ok(Kind::Positions) => e.first = 4 * ranks as usize,
        Ok(Kind::PagedRuns) => e.second = 8 * entries as usize,
        _ => e.first = 8 * entries as usize,
    }
    e
}
