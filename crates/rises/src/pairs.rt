// The pairs of runs, as kinds 1 and 5 check and copy them: the sums up to a run's end, all cells and the empty ones among them.
ghost use Rattle.std.specs.Prelude.{◌≡◌, ◌+◌, ◌*◌, ◌≤◌, length};
ghost use Rattle.rises.specs.Falls.{fallen, follows, pair_falls};
ghost use Rattle.rises.specs.Copied.{copied};

use stores::put_pair;
use wire::{Pair, get_pair};

// 1 where y does not follow on x: it has not more cells, more empty cells and more stored cells.
pub fn fall(x: Pair, y: Pair) -> u32
    ensures { (result ≡ fallen (follows x y)) × (result ≤ 1) }
{
    let cells = y.first.wrapping_sub(x.first);
    let empty = y.second.wrapping_sub(x.second);
    u32::from((y.first <= x.first) | (y.second <= x.second) | (cells <= empty))
}

// How many of the n pairs behind the one at an offset do not follow on the one before.
pub fn pair_falls(file: &[u8], at: usize, n: u32) -> u32
    requires { at + 8 + 8 * n ≤ length file.now }
    ensures { (result ≡ pair_falls n at file.now) × (result ≤ n) }
{
    let mut count = 0;
    for i in 0..n as usize {
        count += fall(get_pair(file, at + 8 * i), get_pair(file, at + 8 * i + 8));
    }
    count
}

// n pairs from a place of the file on, each number raised by its shift, at `at`.
pub fn copy_pairs(
    dst: &mut [u8],
    at: usize,
    file: &[u8],
    from: usize,
    n: usize,
    first: u32,
    second: u32,
)
    requires { (from + 8 * n ≤ length file.now) × (at + 8 * n ≤ length dst.old) }
    ensures { dst.new ≡ copied file.now from first second at n dst.old }
{
    for i in 0..n {
        let run = get_pair(file, from + 8 * i);
        put_pair(
            dst,
            at + 8 * i,
            run.first.wrapping_add(first),
            run.second.wrapping_add(second),
        );
    }
}
