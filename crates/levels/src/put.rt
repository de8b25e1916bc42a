// The levels above level 0, which are made of it.
ghost use Rattle.std.specs.Prelude.{◌≡◌, ◌+◌, ◌*◌, ◌≤◌, ◌<◌, ◌^◌};
ghost use Rattle.format.specs.Tools.{up_to};
ghost use Rattle.format.specs.Bytes.{bytes_of};
ghost use Rattle.format.specs.PagedRuns.{level, lasts, upper_levels, flat_spans};
ghost use Rattle.stores.specs.Put.{put};
ghost use Rattle.levels.specs.Levels.{span_of};
ghost use Rattle.levels.specs.LevelZero.{level_in, Stands, LevelZero, summed};

use stores::put_pair;
use wire::{Pair, get_pair};

// The sums of a page so far, all cells and the empty ones among them, and how many entries are left in it.
#[derive(Clone, Copy)]
struct Sums {
    left: u32,
    cells: u32,
    empty: u32,
}

// The sums with one more pair: they begin anew where none is left in the page.
fn add(step: u32, s: Sums, x: Pair) -> Sums
    requires { (1 ≤ step) × (s.cells + x.first < 2 ^ 32) × (s.empty + x.second < 2 ^ 32) }
    ensures { result ≡ summed step s (span_of x) }
{
    if s.left == 0 {
        return Sums {
            left: step - 1,
            cells: x.first,
            empty: x.second,
        };
    }
    Sums {
        left: s.left - 1,
        cells: s.cells + x.first,
        empty: s.empty + x.second,
    }
}

// From `start` on, the level above that of `under` entries from `below` on: an entry for each page, up to `below`.
fn put_level(dst: &mut [u8], step: u32, start: usize, below: usize, under: usize)
    requires { Stands dst.old step under below × (start + 8 * up_to under step ≡ below) }
    ensures { dst.new ≡ put dst.old start (bytes_of 4 (flat_spans (level step (lasts step (level_in dst.old under below))))) }
{
    let page = step as usize;
    let mut s = Sums {
        left: 0,
        cells: 0,
        empty: 0,
    };
    let mut at = start;
    let mut from = below;
    let mut rest = under;
    while 0 < rest {
        let size = page.min(rest);
        from += 8 * size;
        rest -= size;
        s = add(step, s, get_pair(&dst[..], from - 8));
        put_pair(dst, at, s.cells, s.empty);
        at += 8;
    }
}

// From `start` on, the levels above level 0, whose entries stand in dst from `second` on.
pub fn put_levels(dst: &mut [u8], start: usize, step: u32, runs: u32, second: usize)
    requires { LevelZero dst.old start step runs second }
    ensures { dst.new ≡ put dst.old start (bytes_of 4 (flat_spans (upper_levels step (level_in dst.old runs second)))) }
{
    let page = step as usize;
    let mut below = second;
    let mut under = runs as usize;
    while page < under {
        let size = (under + (page - 1)) / page;
        let at = below - 8 * size;
        put_level(dst, step, at, below, under);
        below = at;
        under = size;
    }
}
