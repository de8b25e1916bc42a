// The rule of the setting, and the bytes of each part by the counts.
ghost use Rattle.std.specs.Prelude.{◌≡◌, true, ◌≤◌};
ghost use Rattle.format.specs.Jumps.{jumps_kind};
ghost use Rattle.parts.specs.Holds.{Sized};

use format::View;
use parts::PartBytes;

// Width is 1 or 2, step is 0.
#[tactic(auto, unfolding(format::specs::Jumps::jumps_kind))]
pub fn allowed(width: u32, step: u32) -> bool
    ensures { result ≡ (jumps_kind width step).allowed }
{
    match (width, step) {
        (1..=2, 0) => true,
        _ => false,
    }
}

// Jumps, at most as many as the words, and a difference for each word. None where the counts are others.
pub fn part_bytes(v: View) -> Option<PartBytes>
    requires { ((jumps_kind v.width v.step).allowed ≡ true) × (v.cells ≤ 16777216) × (v.words ≤ v.cells) }
    ensures { Sized (jumps_kind v.width v.step) v result }
{
    let right = v.firsts <= v.words && v.seconds == v.words;
    right.then_some(PartBytes {
        first: 4 * v.firsts as usize,
        second: v.width as usize * v.seconds as usize,
    })
}
