// Coordinates to position and back.
ghost use Rattle.std.specs.Prelude.{◌≡◌, ◌++◌, ◌≤◌, length, drop};
ghost use Rattle.format.specs.Answers.{signal_of, position_says};
ghost use Rattle.format.specs.Coordinates.{PositionOf};
ghost use Rattle.c_values.specs.Code.{Coded};
ghost use Rattle.c_values.specs.Extents.{dimensions, CoordinatesOut};

use crate::code::position_code;
use crate::extents::{as_four, dimensions_of};
use format::{DIMS, Position, Refusal};
use header::coordinates::{coordinates_at, position_at};
use header::extents::cell_count;

// The position of coordinates, or why there is none.
fn position_of(dims: u32, extents: &[u32], at: &[u32]) -> Result<Position, Refusal>
    ensures { PositionOf (dimensions dims extents.now) at.now (position_says result) }
{
    let d = dimensions_of(dims, extents)?;
    cell_count(d).ok_or(Refusal::Extent)?;
    let at = as_four(at).ok_or(Refusal::Beyond)?;
    position_at(d, at)
}

// The position of coordinates, as a code. Extents that are not four numbers are 4; coordinates that are not four are 8.
pub fn coordinates_position(dims: u32, extents: &[u32], at: &[u32]) -> u64
    ensures { Coded (PositionOf (dimensions dims extents.now) at.now) result }
{
    position_code(position_of(dims, extents, at))
}

// Numbers into a destination's first elements.
pub fn put_numbers(numbers: &[u32], dst: &mut [u32])
    requires { length numbers.now ≤ length dst.old }
    ensures { dst.new ≡ numbers.now ++ drop (length numbers.now) dst.old }
{
    dst[..numbers.len()].copy_from_slice(numbers);
}

// The coordinates of a position, four numbers. Extents that are not four numbers are 4; a destination shorter than four is 10.
pub fn position_coordinates(
    dims: u32,
    extents: &[u32],
    place: u32,
    dst: &mut [u32],
) -> Result<(), Refusal>
    ensures { CoordinatesOut (dimensions dims extents.now) place dst.old (signal_of result) dst.new }
{
    let d = dimensions_of(dims, extents)?;
    let at = coordinates_at(d, Position(place))?;
    if dst.len() < DIMS {
        return Err(Refusal::Small);
    }
    put_numbers(&at, dst);
    Ok(())
}
