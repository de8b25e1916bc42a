// Many positions into level 0: one at a time, or a batch by the ends of its runs.
ghost use Rattle.std.specs.Prelude.{◌≡◌, ◌≤◌, length};
ghost use Rattle.parts.specs.Encoder.{taken_all_by};
ghost use Rattle.parts.specs.Batch.{Along, RoomAll, put_all_by};
ghost use Rattle.rises.specs.Far.{ends_after};
ghost use Rattle.page_entries.specs.Coding.{pages_coder};

use crate::entry::{pages_put, put_entry};
use parts::Encoder;
use parts::encode::grow;
use rises::far::list_ends;

// The most positions whose run ends are listed at a time: a caller's largest batch.
pub const BATCH: usize = 1024;

// The entries of the runs that end before or among the positions ps, which follow a taken one; the encoder after them. `ends` has the number of positions
// of ps up to each of these ends.
fn put_ends<'a>(dst: &mut [u8], step: u32, e: Encoder, ps: &'a [u32], ends: &'a [u32]) -> Encoder
    requires { (1 ≤ step) × (1 ≤ e.rank) × (ends.now ≡ ends_after 0 e.last ps.now) × Along e ps.now × RoomAll (pages_coder step) e ps.now (length dst.old) }
    ensures { (result ≡ taken_all_by (pages_coder step) e ps.now) × (dst.new ≡ put_all_by (pages_coder step) dst.old e ps.now) }
{
    let mut at = e;
    let mut taken: u32 = 0;
    for &end in ends {
        at = put_entry(dst, step, grow(at, end - taken), ps[end as usize]);
        taken = end + 1;
    }
    grow(at, ps.len() as u32 - taken)
}

// The bytes that the positions add, one position at a time; the encoder after them.
pub fn put_each(dst: &mut [u8], step: u32, e: Encoder, ps: &[u32]) -> Encoder
    requires { (1 ≤ step) × Along e ps.now × RoomAll (pages_coder step) e ps.now (length dst.old) }
    ensures { (result ≡ taken_all_by (pages_coder step) e ps.now) × (dst.new ≡ put_all_by (pages_coder step) dst.old e ps.now) }
{
    let mut at = e;
    for &p in ps {
        at = pages_put(dst, step, at, p);
    }
    at
}

// The bytes that the positions of a batch add; the encoder after them. The run ends are listed first, without a branch.
pub fn put_batch(dst: &mut [u8], step: u32, e: Encoder, ps: &[u32]) -> Encoder
    requires { (1 ≤ step) × (1 ≤ length ps.now) × (length ps.now ≤ 1024) × Along e ps.now × RoomAll (pages_coder step) e ps.now (length dst.old) }
    ensures { (result ≡ taken_all_by (pages_coder step) e ps.now) × (dst.new ≡ put_all_by (pages_coder step) dst.old e ps.now) }
{
    let mut ends = [0u32; BATCH];
    let k = list_ends(ps, &mut ends);
    let at = pages_put(dst, step, e, ps[0]);
    put_ends(dst, step, at, &ps[1..], &ends[..k])
}
