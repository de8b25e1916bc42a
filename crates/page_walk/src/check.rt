// The check of level 0: all its entries in one pass, then the ends of its pages.
ghost use Rattle.std.specs.Prelude.{◌≡◌, take, drop};
ghost use Rattle.levels.specs.Levels.{entries};
ghost use Rattle.levels.specs.Comparing.{Inside};
ghost use Rattle.page_walk.specs.Passing.{Small, past_page, runs_right};

use format::View;
use rises::pairs::{fall, pair_falls};
use wire::{Pair, get_pair};

// The pages of level 0 so far: how many begin with an entry that does not follow on the one before, whether each past the first begins with a run of its own
// (gathered without a branch), and the sums of their last entries, all cells and the empty ones among them.
#[derive(Clone, Copy)]
struct Pages {
    falls: u32,
    right: bool,
    cells: u64,
    empty: u64,
}

// Past a page with the last entry x, before one with the first entry y.
fn past_page(s: Pages, x: Pair, y: Pair) -> Pages
    requires { Small s }
    ensures { result ≡ past_page s x y }
{
    Pages {
        falls: s.falls + fall(x, y),
        right: s.right & (0 < y.second) & (y.second < y.first),
        cells: s.cells + u64::from(x.first),
        empty: s.empty + u64::from(x.second),
    }
}

// Level 0 is right: its first run has a stored cell, the entries that do not follow on the one before are all at the starts of pages, which begin with runs
// of their own, and the sums end within the picture's cells, with as many stored cells as there are words.
pub fn runs_right(file: &[u8], v: View) -> bool
    requires { Inside file.now v }
    ensures { result ≡ runs_right v.step v.cells v.words (take v.seconds (drop v.firsts (entries v.start file.now))) }
{
    let step = v.step;
    let mut left = v.seconds;
    let mut at = v.second as usize;
    if left == 0 {
        return v.words == 0;
    }
    let first = get_pair(file, at);
    let falls = pair_falls(file, at, left - 1);
    let mut s = Pages {
        falls: 0,
        right: first.second < first.first,
        cells: 0,
        empty: 0,
    };
    while step < left {
        at += 8 * step as usize;
        left -= step;
        s = past_page(s, get_pair(file, at - 8), get_pair(file, at));
    }
    let last = get_pair(file, at + 8 * (left - 1) as usize);
    let cells = s.cells + u64::from(last.first);
    let empty = s.empty + u64::from(last.second);
    s.right
        & (falls == s.falls)
        & (cells <= u64::from(v.cells))
        & (cells == empty + u64::from(v.words))
}
