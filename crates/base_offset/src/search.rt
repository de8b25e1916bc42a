// The searches in the two parts. Any bytes and any view are safe.
ghost use Rattle.std.specs.Prelude.{◌<◌};
ghost use Rattle.format.specs.BaseOffset.{based_kind};
ghost use Rattle.parts.specs.Found.{FoundIn, PositionIn};

use base_groups::search::last_offset;
use format::{Position, Rank, View};
use parts::Found;
use parts::search::last_at_most;
use parts::walk::entry_of;
use wire::load_u32;

// Where a position stands: the last base that is at most it, then the last such offset of that base's group.
pub fn find(file: &[u8], v: View, p: Position) -> Found
    requires { p.0 < v.cells }
    ensures { FoundIn (based_kind v.width v.step) file.now v p.0 result }
{
    let wanted = p.0;
    let j = last_at_most(file, v.start as usize, v.firsts, wanted);
    let base = load_u32(file, v.start as usize + 4 * (j as usize));
    let start = (j as u64) * (v.step as u64);
    if wanted < base || v.words as u64 <= start {
        return Found {
            below: 0,
            here: false,
        };
    }
    let rank = start as u32;
    let n = v.step.min(v.words - rank);
    if n == 0 {
        return Found {
            below: 0,
            here: false,
        };
    }
    let r = rank + last_offset(file, v, rank, n, wanted - base);
    if entry_of(file, v, r) == wanted - base {
        return Found {
            below: r,
            here: true,
        };
    }
    Found {
        below: r + 1,
        here: false,
    }
}

// The position of a rank: its base and its offset.
pub fn position_of(file: &[u8], v: View, r: Rank) -> u64
    requires { r.0 < v.words }
    ensures { PositionIn (based_kind v.width v.step) file.now v r.0 result }
{
    let rank = r.0;
    if v.step == 0 {
        return 0;
    }
    let j = rank / v.step;
    let base = load_u32(file, v.start as usize + 4 * (j as usize));
    (base as u64) + (entry_of(file, v, rank) as u64)
}
