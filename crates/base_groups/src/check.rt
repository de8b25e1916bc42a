// The check of the groups: a base of 4 bytes, and the offsets of the ranks that it serves.
ghost use Rattle.std.specs.Prelude.{◌≡◌, ◌<◌};
ghost use Rattle.format.specs.BaseOffset.{based_kind};
ghost use Rattle.parts.specs.Holds.{Counted};
ghost use Rattle.base_groups.specs.Group.{ends_of};

use format::View;
use offsets::ends::ends_right;
use wire::{entry_size, get_u32};

// The groups of a view with words, each by its ends. The last group's positions are below cells.
pub fn groups_right(file: &[u8], v: View) -> bool
    requires { (Counted (based_kind v.width v.step) file.now v) × (0 < v.words) }
    ensures { result ≡ ends_of file.now v }
{
    let stride = entry_size(v.width) * v.step as usize;
    let start = v.start as usize;
    let second = v.second as usize;
    let more = v.firsts as usize - 1;
    let mut base = get_u32(file, start);
    for i in 0..more {
        let next = get_u32(file, start + 4 * (i + 1));
        if !ends_right(file, second + stride * i, v.width, v.step, base, next) {
            return false;
        }
        base = next;
    }
    let left = v.words - v.step * more as u32;
    ends_right(file, second + stride * more, v.width, left, base, v.cells)
}
