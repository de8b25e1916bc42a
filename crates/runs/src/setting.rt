// The rule of kind 1's setting, and the bytes of its parts.
ghost use Rattle.std.specs.Prelude.{◌≡◌, ◌≤◌, true};
ghost use Rattle.format.specs.Runs.{runs_kind};
ghost use Rattle.parts.specs.Holds.{Sized};

use format::View;
use parts::PartBytes;

// Width and step are 0.
#[tactic(auto, unfolding(format::specs::Runs::runs_kind))]
pub fn allowed(width: u32, step: u32) -> bool
    ensures { result ≡ (runs_kind width step).allowed }
{
    match (width, step) {
        (0, 0) => true,
        _ => false,
    }
}

// Runs, at most as many as the words, 8 bytes each; no second part. None where the counts are others.
pub fn part_bytes(v: View) -> Option<PartBytes>
    requires { ((runs_kind v.width v.step).allowed ≡ true) × (v.cells ≤ 16777216) × (v.words ≤ v.cells) }
    ensures { Sized (runs_kind v.width v.step) v result }
{
    let right = v.firsts <= v.words && v.seconds == 0;
    right.then_some(PartBytes {
        first: 8 * v.firsts as usize,
        second: 0,
    })
}
