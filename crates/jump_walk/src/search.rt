// The search along the differences, from a place on, over any bytes.
ghost use Rattle.std.specs.Prelude.{◌≡◌, ◌+◌, ◌*◌, ◌<◌, ◌≤◌, length};
ghost use Rattle.differences.specs.Walk.{origin, Within};
ghost use Rattle.jump_walk.specs.Held.{FoundFrom};
ghost use Rattle.jump_walk.specs.Passed.{Near};

use differences::walk::{Place, Reached, advance, walk};
use format::View;
use parts::Found;
use wire::load_u32;

// Rank 0, by the first jump; the jumps begin at `start`.
pub fn first_place(file: &[u8], start: u32) -> Place
    ensures { (result.rank ≡ 0) × (result.reached ≡ origin start file.now) × Within 1 result.reached }
{
    Place {
        rank: 0,
        reached: Reached {
            position: load_u32(file, start as usize) as usize,
            taken: 1,
        },
    }
}

// From a place on rank by rank as long as the position is below p, over n ranks at most and never past the last.
fn step_to(file: &[u8], v: View, width: u32, from: Place, p: u32, n: usize) -> Place
    requires { (1 ≤ width) × (width ≤ 2) × (from.rank < v.words) × (v.second + width * v.words ≤ length file.now) × Within (from.rank + 1) from.reached }
    ensures { Near file.now v width from p n result }
{
    let end = from.rank + n.min(v.words as usize - 1 - from.rank);
    let mut s = from.reached;
    for r in from.rank..end {
        if p as usize <= s.position {
            return Place {
                rank: r,
                reached: s,
            };
        }
        s = advance(file, v.start, v.second as usize, width, r + 1, s);
    }
    Place {
        rank: end,
        reached: s,
    }
}

// The place of a position, sought from a rank on: over the next ranks one by one, as it is often near; else by groups, and then one by one.
pub fn seek_from(file: &[u8], v: View, width: u32, from: Place, p: u32) -> Found
    requires { (1 ≤ width) × (width ≤ 2) × (from.rank < v.words) × (v.second + width * v.words ≤ length file.now) × Within (from.rank + 1) from.reached }
    ensures { FoundFrom file.now v width from p result }
{
    let target = p as usize;
    let near = step_to(file, v, width, from, p, 64);
    if target <= near.reached.position {
        return Found {
            below: near.rank as u32,
            here: near.reached.position == target,
        };
    }
    let far = walk(
        file,
        v.start,
        v.second as usize,
        width,
        near,
        v.words as usize - 1,
        Some(target),
    );
    let at = step_to(file, v, width, far, p, 4294967295);
    if at.reached.position < target {
        return Found {
            below: v.words,
            here: false,
        };
    }
    Found {
        below: at.rank as u32,
        here: at.reached.position == target,
    }
}
