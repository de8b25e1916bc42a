// The jumps after a rank, counted by the differences that are 0.
ghost use Rattle.std.specs.Prelude.{◌≤◌};
ghost use Rattle.differences.specs.Walk.{Room, JumpAfter};

use super::groups::{difference, zero, zeros};

// The rank of the m-th jump after rank r, or the last rank: rank by rank.
fn step_after(file: &[u8], second: usize, width: u32, r: usize, m: usize, last: usize) -> usize
    requires { Room width second file.now last × (r ≤ last) }
    ensures { JumpAfter width second file.now r m last result }
{
    let mut left = m;
    for at in r..last {
        if left == 0 {
            return at;
        }
        left -= zero(difference(file, second, at + 1, width)) as usize;
    }
    last
}

// The same, over groups of 128 ranks as long as they have fewer.
pub fn jump_after(file: &[u8], second: usize, width: u32, r: usize, m: usize, last: usize) -> usize
    requires { Room width second file.now last × (r ≤ last) }
    ensures { JumpAfter width second file.now r m last result }
{
    let mut at = r;
    let mut left = m;
    // By hand: behind the last whole group the search goes on from `at`.
    while 128 <= last - at {
        let z = zeros(file, second, width, at);
        if left <= z {
            return step_after(file, second, width, at, left, last);
        }
        left -= z;
        at += 128;
    }
    step_after(file, second, width, at, left, last)
}
