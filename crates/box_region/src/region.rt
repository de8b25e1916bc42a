// A box in the extents of a picture, with rows as long as may be: where a box covers its last dimension whole, that one and the one before are one.
ghost use Rattle.std.specs.Prelude.{◌≡◌, ◌+◌, get_or};
ghost use Rattle.box_region.specs.Region.{Placed, SameCells};

use format::Coordinates;

#[derive(Clone, Copy)]
pub struct Region {
    pub extents: Coordinates,
    pub low: Coordinates,
    pub high: Coordinates,
}

// The last two dimensions as one, where the last is covered whole. The first is new, of extent 1.
fn merged(r: Region) -> Region
    requires { Placed r × (get_or r.low 3 0 ≡ 0) × (get_or r.high 3 0 + 1 ≡ get_or r.extents 3 0) }
    ensures { SameCells r result }
{
    let e = r.extents;
    let l = r.low;
    let h = r.high;
    let row = e[3];
    Region {
        extents: [1, e[0], e[1], e[2] * row],
        low: [0, l[0], l[1], l[2] * row],
        high: [0, h[0], h[1], h[2] * row + h[3]],
    }
}

// The same cells with the longest rows.
pub fn long_rows(mut r: Region) -> Region
    requires { Placed r }
    ensures { SameCells r result }
{
    for _ in 0..3 {
        let e = r.extents;
        let l = r.low;
        let h = r.high;
        if l[3] != 0 {
            return r;
        }
        if e[3] - h[3] != 1 {
            return r;
        }
        r = merged(r);
    }
    r
}
