// The check of the levels above level 0: along each of them once, with the last entries of the pages below.
ghost use Rattle.std.specs.Prelude.{◌≡◌, ◌≤◌, ◌<◌, ◌^◌, take, drop, eqb};
ghost use Rattle.format.specs.Tools.{pick};
ghost use Rattle.format.specs.PagedRuns.{level, lasts, upper_levels};
ghost use Rattle.levels.specs.Levels.{entries, span_of};
ghost use Rattle.levels.specs.Comparing.{compared_with, same_spans, Inside, LevelInside};

use crate::entry::pair_at;
use format::View;
use parts::encode::left_after;
use wire::Pair;

// A level above so far: how many entries are left in the page, the entry before, and whether each entry is the sum that it should be, gathered without a
// branch.
#[derive(Clone, Copy)]
struct Compared {
    left: u32,
    sum: Pair,
    right: bool,
}

// A number of the entry before, or 0 at the start of a page.
fn before_of(left: u32, before: u32) -> u64
    ensures { (result ≡ pick (eqb left 0) 0 before) × (result < 2 ^ 32) }
{
    if left == 0 { 0 } else { u64::from(before) }
}

// Past one more entry u of a level, where x is the last entry of its page below.
fn compare(step: u32, s: Compared, u: Pair, x: Pair) -> Compared
    requires { 1 ≤ step }
    ensures { result ≡ compared_with step s u (span_of x) }
{
    let left = s.left;
    let before = s.sum;
    let cells = before_of(left, before.first) + u64::from(x.first);
    let empty = before_of(left, before.second) + u64::from(x.second);
    let right = s.right & (u64::from(u.first) == cells) & (u64::from(u.second) == empty);
    Compared {
        left: left_after(step, left),
        sum: u,
        right,
    }
}

// The level of `size` entries from entry `first` on is the one above the level of `under` entries from entry `below` on.
fn level_right(
    file: &[u8],
    start: u32,
    step: u32,
    first: usize,
    size: usize,
    below: usize,
    under: usize,
) -> bool
    requires { LevelInside file.now start step first size below under }
    ensures { result ≡ same_spans (take size (drop first (entries start file.now)))
        (level step (lasts step (take under (drop below (entries start file.now))))) }
{
    let page = step as usize;
    let mut s = Compared {
        left: 0,
        sum: Pair {
            first: 0,
            second: 0,
        },
        right: true,
    };
    let mut end = 0;
    for i in 0..size {
        end = (end + page).min(under);
        s = compare(
            step,
            s,
            pair_at(file, start, first + i),
            pair_at(file, start, below + end - 1),
        );
    }
    s.right
}

// The levels above level 0 are right.
pub fn upper_right(file: &[u8], v: View) -> bool
    requires { Inside file.now v }
    ensures { result ≡ same_spans (take v.firsts (entries v.start file.now))
        (upper_levels v.step (take v.seconds (drop v.firsts (entries v.start file.now)))) }
{
    let page = v.step as usize;
    let mut below = v.firsts as usize;
    let mut under = v.seconds as usize;
    while page < under {
        let size = (under + (page - 1)) / page;
        let first = below - size;
        if !level_right(file, v.start, v.step, first, size, below, under) {
            return false;
        }
        below = first;
        under = size;
    }
    true
}
