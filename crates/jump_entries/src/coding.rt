// Positions into jumps and differences: to measure, and to write.
ghost use Rattle.std.specs.Prelude.{◌≡◌, ◌+◌, ◌≤◌, length};
ghost use Rattle.parts.specs.Encoder.{taken_by, taken_all_by};
ghost use Rattle.parts.specs.Ready.{Next, Room, put_by};
ghost use Rattle.parts.specs.Batch.{put_all_by, Along, RoomAll};
ghost use Rattle.jump_entries.specs.Coding.{difference_at, jumps_coder};

use difference_rows::put::{put_differences, put_jumps, stored_difference};
use parts::Encoder;
use parts::encode::{limit, move_on};
use rises::far::count_far;
use stores::{put_entry, put_u32};

// The difference of p after the last position, or 0 where there is none.
fn difference_at(width: u32, e: Encoder, p: u32) -> u32
    requires { Next e p × (1 ≤ width) × (width ≤ 2) }
    ensures { result ≡ difference_at width e p }
{
    if e.rank == 0 {
        0
    } else {
        stored_difference(width, e.last, p)
    }
}

fn taken(width: u32, e: Encoder, p: u32) -> Encoder
    requires { Next e p × (1 ≤ width) × (width ≤ 2) }
    ensures { result ≡ taken_by (jumps_coder width) e p }
{
    let first = if difference_at(width, e, p) == 0 {
        e.first + 4
    } else {
        e.first
    };
    move_on(e, p, first, e.second + width as usize)
}

fn put_one(dst: &mut [u8], width: u32, e: Encoder, p: u32) -> Encoder
    requires { Next e p × Room (jumps_coder width) e p (length dst.old) × (1 ≤ width) × (width ≤ 2) }
    ensures { (result ≡ taken_by (jumps_coder width) e p) × (dst.new ≡ put_by (jumps_coder width) dst.old e p) }
{
    let d = difference_at(width, e, p);
    if d == 0 {
        put_u32(dst, e.first, p);
    }
    put_entry(dst, e.second, width, d);
    taken(width, e, p)
}

// The encoder after the positions, with nothing put out: the first, and then all others at once, of which those too far from the one before are jumps.
pub fn take_all(width: u32, e: Encoder, ps: &[u32]) -> Encoder
    requires { (1 ≤ width) × (width ≤ 2) × Along e ps.now }
    ensures { result ≡ taken_all_by (jumps_coder width) e ps.now }
{
    if ps.len() == 0 {
        return e;
    }
    let more = ps.len() - 1;
    let jumps = count_far(ps, limit(width)) as usize;
    let at = taken(width, e, ps[0]);
    Encoder {
        rank: at.rank + more as u32,
        last: ps[more],
        first: at.first + 4 * jumps,
        second: at.second + width as usize * more,
        ..at
    }
}

// The bytes that the positions add, those of the first and then those of all others; the encoder after them.
pub fn put_all(dst: &mut [u8], width: u32, e: Encoder, ps: &[u32]) -> Encoder
    requires { (1 ≤ width) × (width ≤ 2) × Along e ps.now × RoomAll (jumps_coder width) e ps.now (length dst.old) }
    ensures { (result ≡ taken_all_by (jumps_coder width) e ps.now) × (dst.new ≡ put_all_by (jumps_coder width) dst.old e ps.now) }
{
    if ps.len() == 0 {
        return e;
    }
    let end = take_all(width, e, ps);
    let at = put_one(dst, width, e, ps[0]);
    put_jumps(dst, width, at.first, ps, (end.first - at.first) / 4);
    put_differences(dst, width, e.second, ps);
    end
}
