// The searches: among the jumps or the pointers, and then along the differences from there. Any bytes and any view are safe.
ghost use Rattle.std.specs.Prelude.{◌≡◌, true, ◌-◌, ◌^◌, ◌≤◌, ◌<◌};
ghost use Rattle.format.specs.PointedJumps.{pointed_kind};
ghost use Rattle.parts.specs.Found.{FoundIn, PositionIn};
ghost use Rattle.jump_walk.specs.Width.{OfWidth};
ghost use Rattle.pointed_jumps.specs.Search.{Searchable, AtJump, Placed, OfJump};

use super::pointers::{pointer_count, pointers_at};
use differences::after::jump_after;
use differences::walk::{Place, Reached, walk};
use format::{Position, Rank, View};
use jump_walk::search::{first_place, seek_from};
use parts::Found;
use parts::search::last_at_most;
use wire::load_u32;

// Whether there are ranks, jumps and pointers to search, and the differences lie in the file. The width is 1 or 2.
fn searchable(file: &[u8], v: View, width: u32) -> bool
    requires { (1 ≤ width) × (width ≤ 2) }
    ensures { (result ≡ true → Searchable file.now v width) × (Searchable file.now v width → result ≡ true) }
{
    if v.words == 0 || v.firsts == 0 || v.step == 0 {
        return false;
    }
    v.second as usize + width as usize * v.words as usize <= file.len()
}

// A rank, at most `most`, with jump j there; rank 0 with the first jump where the rank is further on or too low for so many jumps.
fn at_jump(file: &[u8], v: View, rank: usize, j: u32, most: usize) -> Place
    requires { most < 2 ^ 32 }
    ensures { AtJump file.now v rank j most result }
{
    if most < rank || rank < j as usize {
        return first_place(file, v.start);
    }
    Place {
        rank,
        reached: Reached {
            position: load_u32(file, v.start as usize + 4 * j as usize) as usize,
            taken: j as usize + 1,
        },
    }
}

// The place of jump j: from the rank that the pointer at or before it names, over the jumps between.
fn jump_place(file: &[u8], v: View, width: u32, j: u32) -> Place
    requires { (1 ≤ width) × (width ≤ 2) × Searchable file.now v width × (j < v.firsts) }
    ensures { Placed file.now v width (v.words - 1) result × OfJump file.now v width j result }
{
    let second = v.second as usize;
    let last = v.words as usize - 1;
    let k = j / v.step;
    let pointers = pointers_at(second, width, v.words);
    let pointer = load_u32(file, pointers + 4 * k as usize) as usize;
    let between = (j - k * v.step) as usize;
    let rank = jump_after(file, second, width, pointer.min(last), between, last);
    at_jump(file, v, rank, j, last)
}

// The place of the last jump with a pointer that is at or before a rank.
fn pointed_place(file: &[u8], v: View, width: u32, rank: u32) -> Place
    requires { (1 ≤ width) × (width ≤ 2) × Searchable file.now v width × (rank < v.words) }
    ensures { Placed file.now v width rank result }
{
    let pointers = pointers_at(v.second as usize, width, v.words);
    let count = pointer_count(v.firsts, v.step);
    let k = last_at_most(file, pointers, count, rank);
    let named = load_u32(file, pointers + 4 * k as usize) as usize;
    at_jump(file, v, named, k * v.step, rank as usize)
}

// The place of a position. The width is 1 or 2; on right parts it is the view's.
fn seek(file: &[u8], v: View, width: u32, p: u32) -> Found
    requires { (1 ≤ width) × (width ≤ 2) × OfWidth v width }
    ensures { FoundIn (pointed_kind v.width v.step) file.now v p result }
{
    if !searchable(file, v, width) {
        return Found {
            below: 0,
            here: false,
        };
    }
    let j = last_at_most(file, v.start as usize, v.firsts, p);
    seek_from(file, v, width, jump_place(file, v, width, j), p)
}

// The position of a rank below the words, as above.
fn seek_position(file: &[u8], v: View, width: u32, rank: u32) -> u64
    requires { (1 ≤ width) × (width ≤ 2) × (rank < v.words) × OfWidth v width }
    ensures { PositionIn (pointed_kind v.width v.step) file.now v rank result }
{
    if !searchable(file, v, width) {
        return 0;
    }
    let from = pointed_place(file, v, width, rank);
    let place = walk(
        file,
        v.start,
        v.second as usize,
        width,
        from,
        rank as usize,
        None,
    );
    place.reached.position as u64
}

// How many stored positions are below a position, and whether it is one of them.
pub fn find(file: &[u8], v: View, p: Position) -> Found
    requires { p.0 < v.cells }
    ensures { FoundIn (pointed_kind v.width v.step) file.now v p.0 result }
{
    if v.width == 1 {
        return seek(file, v, 1, p.0);
    }
    seek(file, v, 2, p.0)
}

// The position of a rank; any number over bytes that are no right parts.
pub fn position_of(file: &[u8], v: View, r: Rank) -> u64
    requires { r.0 < v.words }
    ensures { PositionIn (pointed_kind v.width v.step) file.now v r.0 result }
{
    if v.width == 1 {
        return seek_position(file, v, 1, r.0);
    }
    seek_position(file, v, 2, r.0)
}
