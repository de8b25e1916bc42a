// The search among the offsets of one base. Any bytes and any view are safe.
ghost use Rattle.std.specs.Prelude.{◌+◌};
ghost use Rattle.parts.specs.Cursor.{entry_of};
ghost use Rattle.parts.specs.Last.{LastAtMost};

use format::View;
use offsets::last::last;

// The index of the last of the n offsets from a rank on that is at most x, where they rise; 0 where none is.
pub fn last_offset(file: &[u8], v: View, rank: u32, n: u32, x: u32) -> u32
    ensures { LastAtMost (λ i. entry_of file.now v (rank + i)) n x result }
{
    if n == 0 {
        return 0;
    }
    match v.width {
        1 => last::<u8>(file, v.second, rank, n, x),
        2 => last::<u16>(file, v.second, rank, n, x),
        _ => 0,
    }
}
