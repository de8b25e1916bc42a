// Coordinates to position and back (document 01, "The picture" and "The calls"): 4, then 8.
ghost use Rattle.std.specs.Prelude.{◌≡◌};
ghost use Rattle.format.specs.Answers.{signal_of, position_says, coordinates_values_of};
ghost use Rattle.format.specs.Picture.{coordinates_at};
ghost use Rattle.format.specs.Coordinates.{PositionOf, CoordinatesOf, coordinates_number};

use super::extents::cell_count;
use format::{Coordinates, DIMS, Dimensions, Position, Refusal};

// The position of coordinates in row order, the last dimension running fastest.
pub fn position_at(d: Dimensions, at: Coordinates) -> Result<Position, Refusal>
    ensures { PositionOf d at (position_says result) }
{
    cell_count(d).ok_or(Refusal::Extent)?;
    let extents = d.extents;
    let mut p: u32 = 0;
    for i in 0..DIMS {
        let e = extents[i];
        let a = at[i];
        if e <= a {
            return Err(Refusal::Beyond);
        }
        p = p * e + a;
    }
    Ok(Position(p))
}

// The coordinates of a position inside the picture, the last dimension first.
pub fn coordinates_inside(d: Dimensions, p: Position) -> Coordinates
    requires { coordinates_number d p.0 ≡ 0 }
    ensures { result ≡ coordinates_at d p.0 }
{
    let extents = d.extents;
    let mut at = [0u32; DIMS];
    let mut rest = p.0;
    for i in (0..DIMS).rev() {
        let e = extents[i];
        at[i] = rest % e;
        rest = rest / e;
    }
    at
}

// The coordinates of a position.
pub fn coordinates_at(d: Dimensions, p: Position) -> Result<Coordinates, Refusal>
    ensures { CoordinatesOf d p.0 (signal_of result) (coordinates_values_of result) }
{
    let cells = cell_count(d).ok_or(Refusal::Extent)?;
    if cells <= p.0 {
        return Err(Refusal::Beyond);
    }
    Ok(coordinates_inside(d, p))
}
