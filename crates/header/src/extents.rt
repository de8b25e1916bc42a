// The picture's dimensions (document 01, "The picture").
ghost use Rattle.std.specs.Prelude.{◌≡◌, ◌≤◌, IfSome};
ghost use Rattle.format.specs.Tools.{pick};
ghost use Rattle.format.specs.Picture.{cells, dimensions_allowed};

use format::{DIMS, Dimensions};

// The number of cells, where the dimensions are allowed. It stops as soon as the product passes the most; an extent of 0 makes the product 0.
pub fn cell_count(d: Dimensions) -> Option<u32>
    ensures { (result ≡ pick (dimensions_allowed d) (Some (cells d)) None) × IfSome result (λ n. n ≤ 16777216) }
{
    let count = d.count;
    match count {
        1..=4 => (),
        _ => return None,
    }
    let extents = d.extents;
    let dimensions = count as usize;
    let mut cells: u64 = 1;
    for i in 0..DIMS {
        let e = extents[i];
        if dimensions <= i {
            if e != 1 {
                return None;
            }
        }
        cells = cells * e as u64;
        if 16777216 < cells {
            return None;
        }
    }
    if cells == 0 { None } else { Some(cells as u32) }
}
