// The search in a row of entries. Any bytes are safe.
ghost use Rattle.std.specs.Prelude.{◌+◌, ◌*◌, ◌≤◌};
ghost use Rattle.wire.specs.Wire.{whole};
ghost use Rattle.parts.specs.Last.{LastAtMost};

use entries::Entry;
use parts::search::counted;

// The index of the last of n >= 1 entries, from that of a rank on, that is at most x, where they rise; 0 where none is.
pub fn last<E: Entry>(file: &[u8], second: u32, rank: u32, n: u32, x: u32) -> u32
    requires { 1 ≤ n }
    ensures { LastAtMost (λ i. whole E.WIDTH (second + E.WIDTH * (rank + i)) file.now) n x result }
{
    let at = second as usize + E::WIDTH * rank as usize;
    if file.len() < at + E::WIDTH * n as usize {
        return 0;
    }
    let mut count: u32 = 0;
    for i in 1..n as usize {
        count += counted(E::get(file, at + E::WIDTH * i), x) as u32;
    }
    count
}
