// Coordinates to position and back.
ghost use Rattle.format.specs.Coordinates.{PositionOf};
ghost use Rattle.c_values.specs.Code.{Coded};
ghost use Rattle.c_values.specs.Extents.{dimensions, CoordinatesOut};

use c_values::code::signal;
use c_values::coordinates::{coordinates_position, position_coordinates};

// The position of coordinates. Extents that are not four numbers are 4; coordinates that are not four are 8.
#[unsafe(no_mangle)]
pub extern "C" fn ra_coordinates_position(dims: u32, extents: &[u32], at: &[u32]) -> u64
    ensures { Coded (PositionOf (dimensions dims extents.now) at.now) result }
{
    coordinates_position(dims, extents, at)
}

// The coordinates of a position, four numbers. Extents that are not four numbers are 4; a destination shorter than four is 10.
#[unsafe(no_mangle)]
pub extern "C" fn ra_position_coordinates(
    dims: u32,
    extents: &[u32],
    place: u32,
    dst: &mut [u32],
) -> u32
    ensures { CoordinatesOut (dimensions dims extents.now) place dst.old result dst.new }
{
    signal(position_coordinates(dims, extents, place, dst))
}
