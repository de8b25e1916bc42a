// Ranks of a file of kind 4 or 6 put out in kind 4 or 6 at the file's width: behind the first of them the jumps and differences are those of the file.
#![tactic(auto)]

ghost use Rattle.std.specs.Prelude.{◌≡◌, ◌+◌, ◌*◌, ◌^◌, ◌<◌, length};
ghost use Rattle.parts.specs.Cursor.{walked_as, stepped_as};
ghost use Rattle.parts.specs.Batch.{Along, RoomAll};
ghost use Rattle.parts.specs.Carried.{carried, PutAs, Reached};
ghost use Rattle.jump_walk.specs.Held.{SomeHeld};
ghost use Rattle.jump_walk.specs.Steps.{next};
ghost use Rattle.jump_entries.specs.Coding.{jumps_coder};
ghost use Rattle.jump_copy.specs.Further.{further};

use differences::walk::{Place, walk};
use format::View;
use jump_entries::coding::{put_all, take_all};
use jump_walk::steps::next;
use parts::walk::Walk;
use parts::{Cursor, Encoder};
use stores::copy::copy;

// The cursor n ranks on, all below the words.
fn ranks_on(file: &[u8], v: View, mut c: Cursor, n: u32) -> Cursor
    requires { SomeHeld file.now v × Reached (next file.now v) v.words c (n + 1) }
    ensures { result ≡ stepped_as (next file.now v) c n }
{
    let from = Place {
        rank: c.rank as usize,
        reached: differences::walk::Reached {
            position: c.at as usize,
            taken: c.next as usize,
        },
    };
    let end = c.rank as usize + n as usize;
    let place = walk(file, v.start, v.second as usize, v.width, from, end, None);
    let s = place.reached;
    c.rank += n;
    c.at = s.position as u32;
    c.next = s.taken as u32;
    c
}

// The encoder after the ranks behind the one taken: n of them, up to the cursor `last`, with so many jumps among them.
fn encoder_on(mut e: Encoder, v: View, last: Cursor, n: u32, jumps: u32) -> Encoder
    requires { (e.rank + n < 2 ^ 32) × (e.first + 4 * jumps < 2 ^ 64) × (e.second + v.width * n < 2 ^ 64) }
    ensures { result ≡ further v.width e n last.at jumps }
{
    e.rank += n;
    e.last = last.at;
    e.first += 4 * jumps as usize;
    e.second += v.width as usize * n as usize;
    e
}

// The next n ranks, with nothing put out.
pub fn take_ranks(file: &[u8], v: View, c: Cursor, e: Encoder, n: u32) -> Walk
    requires { SomeHeld file.now v × Reached (next file.now v) v.words c n × Along e (walked_as (next file.now v) c n) }
    ensures { result ≡ carried (next file.now v) (jumps_coder v.width) c e n }
{
    if n == 0 {
        return Walk { c, e };
    }
    let one = [c.at];
    let at = take_all(v.width, e, &one);
    let last = ranks_on(file, v, c, n - 1);
    Walk {
        c: next(file, v, last),
        e: encoder_on(at, v, last, n - 1, last.next - c.next),
    }
}

// The next n ranks, put out.
pub fn put_ranks(dst: &mut [u8], file: &[u8], v: View, c: Cursor, e: Encoder, n: u32) -> Walk
    requires { SomeHeld file.now v × Reached (next file.now v) v.words c n × Along e (walked_as (next file.now v) c n)
        × RoomAll (jumps_coder v.width) e (walked_as (next file.now v) c n) (length dst.old) }
    ensures { PutAs (next file.now v) (jumps_coder v.width) c e n dst.old result dst.new }
{
    if n == 0 {
        return Walk { c, e };
    }
    let one = [c.at];
    let at = put_all(dst, v.width, e, &one);
    let last = ranks_on(file, v, c, n - 1);
    let jumps = last.next - c.next;
    let width = v.width as usize;
    copy(
        dst,
        at.first,
        file,
        v.start as usize + 4 * c.next as usize,
        4 * jumps as usize,
    );
    copy(
        dst,
        at.second,
        file,
        v.second as usize + width * (c.rank as usize + 1),
        width * (n as usize - 1),
    );
    Walk {
        c: next(file, v, last),
        e: encoder_on(at, v, last, n - 1, jumps),
    }
}
