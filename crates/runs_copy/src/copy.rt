// Ranks of a file of kind 1 put out in kind 1. The pair of a whole run keeps L; V changes by one shift for all: the ranks that one file has before the run and the other has not.
ghost use Rattle.std.specs.Prelude.{◌≡◌, ◌+◌, ◌-◌, ◌*◌, ◌<◌, ◌≤◌, true, length};
ghost use Rattle.format.specs.Runs.{runs_kind};
ghost use Rattle.parts.specs.Cursor.{walked_as};
ghost use Rattle.parts.specs.Holds.{Holds, said};
ghost use Rattle.parts.specs.Batch.{Along, RoomAll};
ghost use Rattle.parts.specs.Carried.{PutAs, Reached};
ghost use Rattle.run_search.specs.Before.{ranks_before};
ghost use Rattle.run_walk.specs.Steps.{next};
ghost use Rattle.run_pairs.specs.Coding.{runs_coder};
ghost use Rattle.runs_copy.specs.Copy.{at_run, at_end, ran_on, BetweenRuns};

use format::View;
use parts::walk::Walk;
use parts::{Cursor, Encoder};
use rises::pairs::copy_pairs;
use run_search::search::run_with;
use runs::coding::put_run;
use runs::steps::{next, past};
use wire::{Pair, get_pair};

// The next n ranks, all in the cursor's run.
fn put_part(
    dst: &mut [u8],
    file: &[u8],
    v: View,
    width: u32,
    step: u32,
    c: Cursor,
    e: Encoder,
    n: u32,
) -> Walk
    requires { ((runs_kind width step).allowed ≡ true) × (1 < n → c.at + n ≤ c.last + 1) × Along e (walked_as (next file.now v) c n)
        × RoomAll runs_coder e (walked_as (next file.now v) c n) (length dst.old) }
    ensures { PutAs (next file.now v) runs_coder c e n dst.old result dst.new }
{
    if n == 0 {
        return Walk { c, e };
    }
    let e = put_run(dst, width, step, e, c.at, n);
    let c = past(file, v, c, n - 1);
    Walk { c, e }
}

// The cursor at the first cell of run j, by the pair of the run before.
fn enter_run(file: &[u8], v: View, mut c: Cursor, before: Pair, j: u32) -> Cursor
    requires { before.second ≤ before.first }
    ensures { result ≡ next file.now v (at_end c before.first before.second j) }
{
    c.rank = before.first - before.second;
    c.at = before.first;
    c.next = j;
    c.last = before.first;
    next(file, v, c)
}

// The encoder after n more runs with so many ranks, the last of which ends at `last`.
fn run_on(mut e: Encoder, last: u32, ranks: u32, n: usize) -> Encoder
    requires { (e.rank + ranks < 4294967296) × (e.first + 8 * n < 18446744073709551616) }
    ensures { result ≡ ran_on e last ranks n }
{
    e.rank += ranks;
    e.last = last;
    e.first += 8 * n;
    e
}

// From the first cell of a run on: the whole runs before run j. The pairs go out of the run that the encoder has open, and of all but the last of these.
fn put_whole(dst: &mut [u8], file: &[u8], v: View, c: Cursor, e: Encoder, j: u32) -> Walk
    requires { Holds (runs_kind v.width v.step) file.now v (said (runs_kind v.width v.step) file.now v) × BetweenRuns file.now v c e
        × (c.next ≤ j + 1) × (j ≤ v.firsts) × Along e (walked_as (next file.now v) c (ranks_before file.now v.start j - c.rank))
        × RoomAll runs_coder e (walked_as (next file.now v) c (ranks_before file.now v.start j - c.rank)) (length dst.old) }
    ensures { (result.c ≡ at_run file.now v c j)
        × PutAs (next file.now v) runs_coder c e (ranks_before file.now v.start j - c.rank) dst.old result dst.new }
{
    let start = v.start as usize;
    let open = c.next - 2;
    let n = (j - 1 - open) as usize;
    let shift = c.rank.wrapping_sub(e.rank);
    copy_pairs(dst, e.first, file, start + 8 * open as usize, n, 0, shift);
    let last = get_pair(file, start + 8 * (j - 1) as usize);
    let ranks = last.first + 1 - last.second - c.rank;
    let c = enter_run(file, v, c, last, j);
    let e = run_on(e, last.first, ranks, n);
    Walk { c, e }
}

// From the first cell of a run on: the next n ranks.
fn put_from_run(
    dst: &mut [u8],
    file: &[u8],
    v: View,
    width: u32,
    step: u32,
    c: Cursor,
    e: Encoder,
    n: u32,
) -> Walk
    requires { ((runs_kind width step).allowed ≡ true) × Holds (runs_kind v.width v.step) file.now v (said (runs_kind v.width v.step) file.now v)
        × BetweenRuns file.now v c e × (1 ≤ n) × (c.rank + n ≤ v.words) × Along e (walked_as (next file.now v) c n)
        × RoomAll runs_coder e (walked_as (next file.now v) c n) (length dst.old) }
    ensures { PutAs (next file.now v) runs_coder c e n dst.old result dst.new }
{
    let end = c.rank + n;
    let j = run_with(file, v.start, v.firsts, end);
    let w = put_whole(dst, file, v, c, e, j);
    put_part(dst, file, v, width, step, w.c, w.e, end - w.c.rank)
}

// The next n ranks: the rest of the cursor's run, whole runs, and a part of the last.
pub fn put_runs(
    dst: &mut [u8],
    file: &[u8],
    v: View,
    width: u32,
    step: u32,
    c: Cursor,
    e: Encoder,
    n: u32,
) -> Walk
    requires { ((runs_kind width step).allowed ≡ true) × Holds (runs_kind v.width v.step) file.now v (said (runs_kind v.width v.step) file.now v)
        × Reached (next file.now v) v.words c n × Along e (walked_as (next file.now v) c n)
        × RoomAll runs_coder e (walked_as (next file.now v) c n) (length dst.old) }
    ensures { PutAs (next file.now v) runs_coder c e n dst.old result dst.new }
{
    if n == 0 {
        return Walk { c, e };
    }
    let rest = c.last - c.at + 1;
    if n <= rest {
        return put_part(dst, file, v, width, step, c, e, n);
    }
    let w = put_part(dst, file, v, width, step, c, e, rest);
    put_from_run(dst, file, v, width, step, w.c, w.e, n - rest)
}
