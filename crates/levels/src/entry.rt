// The entries of the levels. They stand one after the other from the start of the first part on: the top level first, level 0 last.
ghost use Rattle.std.specs.Prelude.{◌≡◌, ◌+◌, ◌*◌, ◌≤◌, ◌<◌, ◌^◌, length, get_or};
ghost use Rattle.format.specs.PagedRuns.{none};
ghost use Rattle.levels.specs.Levels.{entries, span_of};

use wire::{Pair, get_pair};

// The entry of this number, which is in the file: all cells, and the empty ones among them.
pub fn pair_at(file: &[u8], start: u32, number: usize) -> Pair
    requires { start + 8 * number + 8 ≤ length file.now }
    ensures { (span_of result ≡ get_or (entries start file.now) number none) × (result.first < 2 ^ 32) × (result.second < 2 ^ 32) }
{
    get_pair(file, start as usize + 8 * number)
}
