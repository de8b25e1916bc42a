// Kind 5's setting and counts (document 01, "The file").
ghost use Rattle.std.specs.Prelude.{◌≡◌, ◌≤◌, true};
ghost use Rattle.format.specs.PagedRuns.{pages_kind};
ghost use Rattle.parts.specs.Holds.{Sized};

use format::View;
use levels::sizes::upper_count;
use parts::PartBytes;

// Width is 0, step is 2 to 64.
#[tactic(auto, unfolding(format::specs::PagedRuns::pages_kind))]
pub fn allowed(width: u32, step: u32) -> bool
    ensures { result ≡ (pages_kind width step).allowed }
{
    match (width, step) {
        (0, 2..=64) => true,
        _ => false,
    }
}

// Runs, at most N, and the entries above them.
fn counts_right(v: View) -> bool
    requires { (v.words ≤ 16777216) × (2 ≤ v.step) × (v.step ≤ 64) }
    ensures { result ≡ (pages_kind v.width v.step).counts v.cells v.words v.firsts v.seconds }
{
    v.seconds <= v.words && v.firsts == upper_count(v.step, v.seconds)
}

// The bytes of each part, 8 an entry. None where the counts are not the kind's.
pub fn part_bytes(v: View) -> Option<PartBytes>
    requires { ((pages_kind v.width v.step).allowed ≡ true) × (v.cells ≤ 16777216) × (v.words ≤ v.cells) }
    ensures { Sized (pages_kind v.width v.step) v result }
{
    counts_right(v).then_some(PartBytes {
        first: 8 * v.firsts as usize,
        second: 8 * v.seconds as usize,
    })
}
