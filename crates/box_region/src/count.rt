// The number of cells of a box (document 01, "The calls"): low and high coordinates, inclusive.
ghost use Rattle.std.specs.Prelude.{◌≡◌, true, ◌≤◌, IfSome};
ghost use Rattle.format.specs.Tools.{pick};
ghost use Rattle.format.specs.Picture.{dimensions_allowed};
ghost use Rattle.format.specs.Box.{box_allowed};
ghost use Rattle.box_region.specs.Bounds.{box_count};

use format::{Coordinates, DIMS, Dimensions};

// None where the box is not allowed. A width is at most its extent, so no product passes the cells of the picture.
pub fn box_count(d: Dimensions, low: Coordinates, high: Coordinates) -> Option<u32>
    requires { dimensions_allowed d ≡ true }
    ensures { (result ≡ pick (box_allowed d low high) (Some (box_count d.extents low high)) None) × IfSome result (λ n. n ≤ 16777216) }
{
    let extents = d.extents;
    let mut count: u32 = 1;
    for i in 0..DIMS {
        let e = extents[i];
        let l = low[i];
        let h = high[i];
        if e <= h {
            return None;
        }
        if h < l {
            return None;
        }
        count = count * (h - l + 1);
    }
    Some(count)
}
