// The searches in the first part. Any bytes and any view are safe.
ghost use Rattle.std.specs.Prelude.{◌<◌};
ghost use Rattle.format.specs.Positions.{positions_kind};
ghost use Rattle.parts.specs.Found.{FoundIn, PositionIn};

use format::{Position, Rank, View};
use parts::Found;
use parts::search::last_at_most;
use wire::load_u32;

// The place of a position: binary search.
pub fn find(file: &[u8], v: View, p: Position) -> Found
    requires { p.0 < v.cells }
    ensures { FoundIn (positions_kind v.width v.step) file.now v p.0 result }
{
    let wanted = p.0;
    if v.words == 0 {
        return Found {
            below: 0,
            here: false,
        };
    }
    let r = last_at_most(file, v.start as usize, v.words, wanted);
    let entry = load_u32(file, v.start as usize + 4 * (r as usize));
    if entry < wanted {
        return Found {
            below: r + 1,
            here: false,
        };
    }
    Found {
        below: r,
        here: entry == wanted,
    }
}

// The position of a rank: its entry.
pub fn position_of(file: &[u8], v: View, r: Rank) -> u64
    requires { r.0 < v.words }
    ensures { PositionIn (positions_kind v.width v.step) file.now v r.0 result }
{
    let rank = r.0;
    u64::from(load_u32(file, v.start as usize + 4 * rank as usize))
}
