// The check of the two parts: the falls among the offsets counted, and the groups by their ends.
ghost use Rattle.std.specs.Prelude.{◌≡◌};
ghost use Rattle.format.specs.BaseOffset.{based_kind};
ghost use Rattle.parts.specs.Holds.{Counted, parts_right};

use base_groups::check::groups_right;
use format::View;
use offsets::falls::count_falls;

// The parts are those of rising positions below cells, as many as the words: every group has its ends right, and the offsets fall
// from group to group alone. At a group's start they always fall, as its first offset is 0.
pub fn parts_right(file: &[u8], v: View) -> bool
    requires { Counted (based_kind v.width v.step) file.now v }
    ensures { result ≡ parts_right (based_kind v.width v.step) file.now v }
{
    if v.words == 0 {
        return true;
    }
    if count_falls(file, v.second as usize, v.width, v.words) != v.firsts - 1 {
        return false;
    }
    groups_right(file, v)
}
