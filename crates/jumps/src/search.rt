// The searches: one pass from rank 0 on, over any bytes and any view.
ghost use Rattle.std.specs.Prelude.{◌≤◌, ◌<◌};
ghost use Rattle.format.specs.Jumps.{jumps_kind};
ghost use Rattle.parts.specs.Found.{FoundIn, PositionIn};
ghost use Rattle.jump_walk.specs.Width.{OfWidth};

use differences::walk::walk;
use format::{Position, Rank, View};
use jump_walk::search::{first_place, seek_from};
use parts::Found;

// The place of a position. The width is 1 or 2; on right parts it is the view's. A file too short for its counts has no right parts.
fn seek(file: &[u8], v: View, width: u32, p: u32) -> Found
    requires { (1 ≤ width) × (width ≤ 2) × OfWidth v width }
    ensures { FoundIn (jumps_kind v.width v.step) file.now v p result }
{
    if v.words == 0 {
        return Found {
            below: 0,
            here: false,
        };
    }
    if file.len() < v.second as usize + width as usize * v.words as usize {
        return Found {
            below: 0,
            here: false,
        };
    }
    seek_from(file, v, width, first_place(file, v.start), p)
}

// The position of a rank below the words, as above.
fn seek_position(file: &[u8], v: View, width: u32, rank: u32) -> u64
    requires { (1 ≤ width) × (width ≤ 2) × (rank < v.words) × OfWidth v width }
    ensures { PositionIn (jumps_kind v.width v.step) file.now v rank result }
{
    let second = v.second as usize;
    if file.len() < second + width as usize * v.words as usize {
        return 0;
    }
    let place = walk(
        file,
        v.start,
        second,
        width,
        first_place(file, v.start),
        rank as usize,
        None,
    );
    place.reached.position as u64
}

// How many stored positions are below a position, and whether it is one of them.
pub fn find(file: &[u8], v: View, p: Position) -> Found
    requires { p.0 < v.cells }
    ensures { FoundIn (jumps_kind v.width v.step) file.now v p.0 result }
{
    if v.width == 1 {
        return seek(file, v, 1, p.0);
    }
    seek(file, v, 2, p.0)
}

// The position of a rank; any number over bytes that are no right parts.
pub fn position_of(file: &[u8], v: View, r: Rank) -> u64
    requires { r.0 < v.words }
    ensures { PositionIn (jumps_kind v.width v.step) file.now v r.0 result }
{
    if v.width == 1 {
        return seek_position(file, v, 1, r.0);
    }
    seek_position(file, v, 2, r.0)
}
