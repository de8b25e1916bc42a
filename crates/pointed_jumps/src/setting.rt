// The rule of the setting, and the bytes of each part by the counts.
ghost use Rattle.std.specs.Prelude.{◌≡◌, true, ◌≤◌};
ghost use Rattle.format.specs.PointedJumps.{pointed_kind};
ghost use Rattle.parts.specs.Holds.{Sized};

use super::pointers::pointer_count;
use format::View;
use parts::PartBytes;

// Width is 1 or 2, step is 1 to 255.
#[tactic(auto, unfolding(format::specs::PointedJumps::pointed_kind))]
pub fn allowed(width: u32, step: u32) -> bool
    ensures { result ≡ (pointed_kind width step).allowed }
{
    match (width, step) {
        (1..=2, 1..=255) => true,
        _ => false,
    }
}

// Jumps, at most as many as the words, a difference for each word, and a pointer for each step-th jump. None where the counts are others.
pub fn part_bytes(v: View) -> Option<PartBytes>
    requires { ((pointed_kind v.width v.step).allowed ≡ true) × (v.cells ≤ 16777216) × (v.words ≤ v.cells) }
    ensures { Sized (pointed_kind v.width v.step) v result }
{
    let pointers = pointer_count(v.firsts, v.step) as usize;
    let right = v.firsts <= v.words && v.seconds == v.words;
    right.then_some(PartBytes {
        first: 4 * v.firsts as usize,
        second: v.width as usize * v.seconds as usize + 4 * pointers,
    })
}
