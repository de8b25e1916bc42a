// The rule of width and step, and of the counts.
ghost use Rattle.std.specs.Prelude.{◌≡◌, ◌≤◌, true};
ghost use Rattle.format.specs.Positions.{positions_kind};
ghost use Rattle.parts.specs.Holds.{Sized};

use format::View;
use parts::PartBytes;

// Width and step are 0.
#[tactic(auto, unfolding(format::specs::Positions::positions_kind))]
pub fn allowed(width: u32, step: u32) -> bool
    ensures { result ≡ (positions_kind width step).allowed }
{
    match (width, step) {
        (0, 0) => true,
        _ => false,
    }
}

// A position of 4 bytes for each stored cell, and no second part. None where the counts are others.
pub fn part_bytes(v: View) -> Option<PartBytes>
    requires { ((positions_kind v.width v.step).allowed ≡ true) × (v.cells ≤ 16777216) × (v.words ≤ v.cells) }
    ensures { Sized (positions_kind v.width v.step) v result }
{
    let right = v.firsts == v.words && v.seconds == 0;
    right.then_some(PartBytes {
        first: 4 * v.firsts as usize,
        second: 0,
    })
}
