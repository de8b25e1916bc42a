// Ranks of a file of kind 5 put out in kind 5. While neither file turns a page, the entries of the runs behind a run differ from its own by the same in both.
#![tactic(auto)]

ghost use Rattle.std.specs.Prelude.{◌≡◌, ◌+◌, ◌≤◌, true, length};
ghost use Rattle.format.specs.PagedRuns.{pages_kind};
ghost use Rattle.parts.specs.Cursor.{walked_as};
ghost use Rattle.parts.specs.Holds.{Holds, said};
ghost use Rattle.parts.specs.Batch.{Along, RoomAll};
ghost use Rattle.parts.specs.Carried.{PutAs, Reached};
ghost use Rattle.page_walk.specs.Steps.{next};
ghost use Rattle.page_entries.specs.Coding.{pages_coder, coder};
ghost use Rattle.pages_copy.specs.Page.{cursor_on, encoder_on, Fits, Further};

use format::View;
use paged_runs::coding::put_run;
use paged_runs::steps::next;
use parts::encode::left_after;
use parts::walk::{Walk, along_run, stretch};
use parts::{Cursor, Encoder};
use rises::pairs::copy_pairs;
use wire::get_pair;

// How many runs behind the cursor's are in its page, at most `room`; 0 where the cursor is not at the end of its run.
fn runs_behind(v: View, c: Cursor, room: u32) -> u32
    ensures { (result ≤ room) × (1 ≤ result → (c.at ≡ c.last) × (c.used + result ≤ v.step) × (c.next + result ≤ v.seconds)) }
{
    if c.at != c.last {
        return 0;
    }
    let page = v.step.saturating_sub(c.used);
    let runs = v.seconds.saturating_sub(c.next);
    page.min(runs).min(room)
}

// Cursor and encoder m runs further in their pages; so many cells and ranks are in these, and the new page takes `left` more entries.
fn run_on(mut c: Cursor, mut e: Encoder, cells: u32, ranks: u32, m: u32, left: u32) -> Walk
    requires { Fits c e cells ranks m }
    ensures { result ≡ record { c = cursor_on c cells ranks m; e = encoder_on e cells ranks m left } }
{
    c.rank += ranks;
    c.last += cells;
    c.at = c.last;
    c.next += m;
    c.used += m;
    e.rank += ranks;
    e.last += cells;
    e.left = left;
    e.second += 8 * m as usize;
    Walk { c, e }
}

// The runs behind the cursor's, as far as neither page turns, where all their ranks are among the next `left`: the entries of the cursor's run, whose last
// cell was taken, and of these but the last.
fn put_page(
    dst: &mut [u8],
    file: &[u8],
    v: View,
    step: u32,
    c: Cursor,
    e: Encoder,
    left: u32,
) -> Walk
    requires { (1 ≤ step) × Holds (pages_kind v.width v.step) file.now v (said (pages_kind v.width v.step) file.now v)
        × Reached (next file.now v) v.words c 1 × (1 ≤ e.rank) × (e.last ≡ c.at) × Along e (walked_as (next file.now v) (next file.now v c) left)
        × RoomAll (pages_coder step) e (walked_as (next file.now v) (next file.now v c) left) (length dst.old) }
    ensures { Further (next file.now v) (pages_coder step) c e left dst.old result dst.new }
{
    let room = left_after(step, e.left);
    let m = runs_behind(v, c, room);
    if m == 0 {
        return Walk { c, e };
    }
    let at = v.second as usize + 8 * (c.next - 1) as usize;
    let x = get_pair(file, at);
    let y = get_pair(file, at + 8 * m as usize);
    let cells = y.first - x.first;
    let ranks = cells - (y.second - x.second);
    if left < ranks {
        return Walk { c, e };
    }
    let end = e.last + 1;
    let first = (end - e.cells).wrapping_sub(x.first);
    let second = (end - e.rank - e.empty).wrapping_sub(x.second);
    copy_pairs(dst, e.second, file, at, m as usize, first, second);
    run_on(c, e, cells, ranks, m, room - (m - 1))
}

// The next n ranks.
pub fn put_runs(
    dst: &mut [u8],
    file: &[u8],
    v: View,
    width: u32,
    step: u32,
    mut c: Cursor,
    mut e: Encoder,
    n: u32,
) -> Walk
    requires { ((pages_kind width step).allowed ≡ true) × Holds (pages_kind v.width v.step) file.now v (said (pages_kind v.width v.step) file.now v)
        × Reached (next file.now v) v.words c n × Along e (walked_as (next file.now v) c n)
        × RoomAll (coder width step) e (walked_as (next file.now v) c n) (length dst.old) }
    ensures { PutAs (next file.now v) (coder width step) c e n dst.old result dst.new }
{
    let mut left = n;
    while 0 < left {
        let k = stretch(c, left);
        e = put_run(dst, width, step, e, c.at, k);
        let last = along_run(c, k - 1);
        left -= k;
        let w = put_page(dst, file, v, step, last, e, left);
        left -= w.c.rank - last.rank;
        c = next(file, v, w.c);
        e = w.e;
    }
    Walk { c, e }
}
