// Searches among the runs of kind 1, in eighths of them: which eighth to go on in is counted, and not branched on. Any bytes are safe.
ghost use Rattle.std.specs.Prelude.{◌≡◌, ◌+◌, ◌*◌, ◌≤◌, length};
ghost use Rattle.wire.specs.Wire.{pair_at};
ghost use Rattle.run_search.specs.Before.{cells_before, ranks_before, LastRun, PartsPassed, FoundBy};

use wire::{Pair, get_pair, load_pair};

// Run j: L_j and V_j.
pub fn run(file: &[u8], start: u32, j: u32) -> Pair
    ensures { result ≡ pair_at (start + 8 * j) file.now }
{
    load_pair(file, start as usize + 8 * j as usize)
}

// The stored cells before run j: L_(j-1) + 1 - V_(j-1).
pub fn ranks_before(file: &[u8], start: u32, j: u32) -> u64
    ensures { result ≡ ranks_before file.now start j }
{
    if j == 0 {
        return 0;
    }
    let before = run(file, start, j - 1);
    let end = before.first as u64 + 1;
    end.saturating_sub(before.second as u64)
}

// Of n parts of `part` runs each, from run `low` on, so many have a last run whose pair passes.
fn parts_passed<F: Fn(Pair) -> bool>(
    file: &[u8],
    start: usize,
    low: usize,
    part: usize,
    n: usize,
    passes: &F,
) -> usize
    requires room { (1 ≤ part) × (start + 8 * (low + part * n) ≤ length file.now) }
    requires callable { F.IsAlwaysCallable passes.now }
    ensures { PartsPassed (F.post passes.now) file.now start low part n result × (result ≤ n) }
{
    let mut count: usize = 0;
    for i in 0..n {
        count += usize::from(passes(get_pair(file, start + 8 * (low + part * (i + 1) - 1))));
    }
    count
}

// The last run before which no more stands than a number, or n: `passes` tells of the run before it, by its pair.
fn last_run<F: Fn(Pair) -> bool>(file: &[u8], start: u32, n: u32, passes: F) -> u32
    requires { F.IsAlwaysCallable passes }
    ensures { FoundBy (F.post passes) file.now start n result }
{
    let at = start as usize;
    if file.len() < at + 8 * n as usize {
        return 0;
    }
    let mut low: usize = 0;
    let mut size = n as usize + 1;
    while 8 <= size {
        let part = size / 8;
        low += part * parts_passed(file, at, low, part, 7, &passes);
        size -= 7 * part;
    }
    low += parts_passed(file, at, low, 1, size - 1, &passes);
    low as u32
}

// The run of position p, or of the empty cells before it: the last with at most p cells before it, or n.
pub fn run_at(file: &[u8], start: u32, n: u32, p: u32) -> u32
    ensures { LastRun (cells_before file.now start) file.now start n p result }
{
    last_run(file, start, n, |x| x.first < p)
}

// The run of rank r: the last with at most r stored cells before it, or n.
pub fn run_with(file: &[u8], start: u32, n: u32, r: u32) -> u32
    ensures { LastRun (ranks_before file.now start) file.now start n r result }
{
    last_run(
        file,
        start,
        n,
        |x| (x.first as u64) < r as u64 + x.second as u64,
    )
}
