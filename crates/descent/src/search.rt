// Along a page to the first entry whose count exceeds the number, and from there to the page below it. For a position a search counts all cells of an
// entry, for a rank its stored cells. The entries of a page rise, so those before that entry are counted, and nothing is branched on. The file is handed
// on as a reference to its slice, which stays in a register.
ghost use Rattle.std.specs.Prelude.{◌≡◌, ◌+◌, ◌*◌, ◌^◌, ◌<◌, ◌≤◌, length, take, drop, nat_le, slice_index_or};
ghost use Rattle.format.specs.Tools.{pick};
ghost use Rattle.format.specs.PagedRuns.{none, less, at};
ghost use Rattle.levels.specs.Levels.{entries, span_of};
ghost use Rattle.descent.specs.Descent.{halves, counted, of_empty, for_rank, told, answered, passed, left_of, descended, walked, PageFits, LevelsFit, InOne, asked_of, searched};

use levels::entry::pair_at;
use levels::sizes::{level_sizes, size_at};
use wire::{Pair, get_u32};

// What is asked of a search: where a position stands, where a rank stands, and that with the ranks from there on in its run.
#[derive(Clone, Copy, PartialEq, Eq)]
pub enum Asked {
    Place,
    Rank,
    Run,
}

// What a number asks: 0 for a place, 2 for a run, each other for a rank.
impl From<u32> for Asked {
    ghost from_gives = { λ n a. a ≡ asked_of n };

    fn from(number: u32) -> Asked {
        match number {
            0 => Asked::Place,
            2 => Asked::Run,
            _ => Asked::Rank,
        }
    }
}

// What a walk answers where no run is reached: 2^64, which no answer is. In one number: with an `Option` the compiler keeps a frame for each level.
const NOWHERE: u128 = 18446744073709551616;

// Whether a rank is asked for, so that stored cells are counted.
fn for_rank(asked: Asked) -> bool
    ensures { result ≡ for_rank asked }
{
    asked != Asked::Place
}

// What a search counts of an entry.
fn count(x: Pair, stored: bool) -> u32
    ensures { result ≡ counted stored (span_of x) }
{
    if stored {
        x.first.wrapping_sub(x.second)
    } else {
        x.first
    }
}

// The same of an entry in the file. Each of its numbers is loaded by itself: so many entries are compared at once.
fn count_at(file: &[u8], start: u32, number: usize, stored: bool) -> u32
    requires { start + 8 * number + 8 ≤ length file.now }
    ensures { result ≡ counted stored (slice_index_or (entries start file.now) number none) }
{
    let at = start as usize + 8 * number;
    let cells = get_u32(file, at);
    if stored {
        cells.wrapping_sub(get_u32(file, at + 4))
    } else {
        cells
    }
}

// How many of the n entries from a number on count at most p: where they rise, those before the first that exceeds it.
fn entries_passed(file: &[u8], start: u32, number: usize, n: usize, stored: bool, p: u32) -> usize
    requires { (n ≤ 64) × (start + 8 * (number + n) ≤ length file.now) }
    ensures { (result ≡ passed (counted stored) p (take n (drop number (entries start file.now)))) × (result ≤ n) }
{
    let mut k: u32 = 0;
    for i in 0..n {
        k += u32::from(count_at(file, start, number + i, stored) <= p);
    }
    k as usize
}

// A number of the entry before the one after k entries; 0 where there is none.
fn kept(x: u32, k: usize) -> u32
    ensures { result ≡ pick (nat_le 1 k) x 0 }
{
    if 0 < k { x } else { 0 }
}

// The entry to the left of the one after k entries of a page that begins at a number; zeros where there is none. An entry is read in any case, and then kept
// or not.
fn entry_before(file: &[u8], start: u32, number: usize, k: usize) -> Pair
    requires { start + 8 * (number + k) + 8 ≤ length file.now }
    ensures { (span_of result ≡ left_of (drop number (entries start file.now)) k) × (result.first < 2 ^ 32) × (result.second < 2 ^ 32) }
{
    let x = pair_at(file, start, number + k.saturating_sub(1));
    Pair {
        first: kept(x.first, k),
        second: kept(x.second, k),
    }
}

// Two numbers of 32 bits as one.
fn halves(high: u64, low: u32) -> u64
    ensures { result ≡ halves high low }
{
    (high % 4294967296) * 4294967296 + u64::from(low)
}

// What a search answers at the run of the entry y, with c to the left of it and `before` empty cells before both, where `rest` of the number is left: twice
// the empty cells up to the number, and 1 more where it stands at a stored cell, as a rank always does; or the empty cells up to a rank, and the ranks from
// there on in its run.
fn answer(before: u64, y: Pair, c: Pair, rest: u32, asked: Asked) -> u64
    requires { before ≤ 2 ^ 40 }
    ensures { result ≡ told asked before rest (less (span_of y) (span_of c)) }
{
    let cells = y.first.saturating_sub(c.first);
    let own = y.second.saturating_sub(c.second);
    match asked {
        Asked::Run => {
            let left = cells.wrapping_sub(own).wrapping_sub(rest);
            halves(before + u64::from(own), left)
        }
        Asked::Rank => 2 * (before + u64::from(own)) + 1,
        Asked::Place => {
            if own <= rest {
                2 * (before + u64::from(own)) + 1
            } else {
                2 * (before + u64::from(rest))
            }
        }
    }
}

// Along a page of the level that begins at entry `from`, past the entries whose count does not exceed p, to the page below the next one. `level` counts the
// levels below.
#[cycle(descend_page_walk)]
fn page_walk<'a, 'b>(
    file: &'b &'a [u8],
    start: u32,
    sizes: &'b [u32; 24],
    step: usize,
    asked: Asked,
    level: usize,
    from: usize,
    first: usize,
    left: usize,
    before: u64,
    p: u32,
) -> u128
    requires { PageFits file.now.now start sizes.now step level from first left before }
    ensures { InOne (answered asked (walked (entries start file.now.now) sizes.now step (for_rank asked) level from first left before p)) result }
{
    let bytes = *file;
    let stored = for_rank(asked);
    let number = from + first;
    let k = entries_passed(bytes, start, number, left, stored, p);
    if left <= k {
        return NOWHERE;
    }
    let c = entry_before(bytes, start, number, k);
    let rest = p.wrapping_sub(count(c, stored));
    let sum = before + u64::from(c.second);
    if level == 0 {
        let y = pair_at(bytes, start, number + k);
        return u128::from(answer(sum, y, c, rest, asked));
    }
    descend(
        file,
        start,
        sizes,
        step,
        asked,
        level,
        from + size_at(sizes, level),
        first + k,
        sum,
        rest,
    )
}

// From an entry of a level to the page below it, which has the entry's number. `level` counts the levels below; they begin at entry `from`.
#[cycle(descend_page_walk)]
fn descend<'a, 'b>(
    file: &'b &'a [u8],
    start: u32,
    sizes: &'b [u32; 24],
    step: usize,
    asked: Asked,
    level: usize,
    from: usize,
    entry: usize,
    before: u64,
    rest: u32,
) -> u128
    requires { LevelsFit file.now.now start sizes.now step level from entry before }
    ensures { InOne (answered asked (descended (entries start file.now.now) sizes.now step (for_rank asked) level from
        (at entry rest (of_empty before) none))) result }
{
    let below = level - 1;
    let size = size_at(sizes, below);
    let first = entry * step;
    if size <= first {
        return NOWHERE;
    }
    let left = step.min(size - first);
    page_walk(
        file, start, sizes, step, asked, below, from, first, left, before, rest,
    )
}

// From the top page down, in levels over so many runs; None where no run is reached. What is asked may be given by its number. A file that is accepted has at
// most 16,777,216 runs, and all levels.
pub fn search<A: Into<Asked>>(
    file: &[u8],
    start: u32,
    step: u32,
    runs: u32,
    number: u32,
    asked: A,
) -> Option<u64>
    ensures { (a : Asked) × A.converts asked a × (result ≡ searched file.now start step runs a number) }
{
    let asked = asked.into();
    if step < 2 {
        return None;
    }
    if 64 < step {
        return None;
    }
    if 16777216 < runs {
        return None;
    }
    let mut sizes = [0u32; 24];
    let levels = level_sizes(step, runs, &mut sizes);
    if file.len() < start as usize + 8 * levels.entries {
        return None;
    }
    let held = file;
    let found = descend(
        &held,
        start,
        &sizes,
        step as usize,
        asked,
        levels.count,
        0,
        0,
        0,
        number,
    );
    if found < NOWHERE {
        Some(found as u64)
    } else {
        None
    }
}
