// The ends of a group's offsets.
ghost use Rattle.std.specs.Prelude.{◌≡◌, ◌+◌, ◌*◌, ◌≤◌, length, drop};
ghost use Rattle.format.specs.Bytes.{numbers_of};
ghost use Rattle.wire.specs.Wire.{entry_size};
ghost use Rattle.offsets.specs.Ends.{group_ends};

use wire::{entry_size, get_entry};

// A group of n >= 1 ranks by its ends: its first offset is 0, and its last position is below the next base.
pub fn ends_right(file: &[u8], at: usize, width: u32, n: u32, base: u32, next: u32) -> bool
    requires { (1 ≤ n) × (at + entry_size width * n ≤ length file.now) }
    ensures { result ≡ group_ends base next (numbers_of (entry_size width) n (drop at file.now)) }
{
    if next <= base {
        return false;
    }
    if get_entry(file, at, width) != 0 {
        return false;
    }
    let last = at + entry_size(width) * ((n - 1) as usize);
    get_entry(file, last, width) < next - base
}
