// The rule of the setting, and the bytes of the parts (document 01, "The file").
ghost use Rattle.std.specs.Prelude.{◌≡◌, true, ◌≤◌};
ghost use Rattle.format.specs.BaseOffset.{based_kind};
ghost use Rattle.parts.specs.Holds.{Sized};

use base_groups::counts::counts_right;
use format::View;
use parts::PartBytes;

// Width is 1 or 2, step is 1 to 255.
#[tactic(auto, unfolding(format::specs::BaseOffset::based_kind))]
pub fn allowed(width: u32, step: u32) -> bool
    ensures { result ≡ (based_kind width step).allowed }
{
    match (width, step) {
        (1..=2, 1..=255) => true,
        _ => false,
    }
}

// The bytes of each part, by the counts. None where the counts are not the kind's.
pub fn part_bytes(v: View) -> Option<PartBytes>
    requires { ((based_kind v.width v.step).allowed ≡ true) × (v.cells ≤ 16777216) × (v.words ≤ v.cells) }
    ensures { Sized (based_kind v.width v.step) v result }
{
    counts_right(v).then_some(PartBytes {
        first: 4 * v.firsts as usize,
        second: v.width as usize * v.seconds as usize,
    })
}
