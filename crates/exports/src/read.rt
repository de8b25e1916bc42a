// Check, expand and the three lookups, each with the complete check first.
ghost use Rattle.format.specs.Answers.{signal_of};
ghost use Rattle.format.specs.Accepted.{Checked};
ghost use Rattle.format.specs.Calls.{Expanded};
ghost use Rattle.format.specs.Lookups.{CellFound, RankFound, PositionFound};
ghost use Rattle.c_values.specs.Code.{Coded};
ghost use Rattle.c_values.specs.Info.{InfoOut};

use c_values::code::{cell_code, position_code, rank_code, signal};
use c_values::info::put_info;
use format::{Position, Rank, Refusal};
use reading::check::check;
use reading::expand::expand;
use reading::lookup::{cell, position, rank};

// 0, or the first of 1 to 6 that applies.
#[unsafe(no_mangle)]
pub extern "C" fn ra_check(file: &[u8]) -> u32
    ensures { Checked file.now result }
{
    signal(check(file))
}

// The header's numbers of an accepted file.
fn info(file: &[u8], dst: &mut [u32]) -> Result<(), Refusal>
    ensures { InfoOut file.now dst.old (signal_of result) dst.new }
{
    check(file)?;
    put_info(file, dst)
}

// What the header says: kind, width, step, dimension count, cells, E, N, and the four extents. A destination shorter than these eleven is 10.
#[unsafe(no_mangle)]
pub extern "C" fn ra_info(file: &[u8], dst: &mut [u32]) -> u32
    ensures { InfoOut file.now dst.old result dst.new }
{
    signal(info(file, dst))
}

// The words of all cells into dst, in row order.
#[unsafe(no_mangle)]
pub extern "C" fn ra_expand(file: &[u8], dst: &mut [u32]) -> u32
    ensures { Expanded file.now dst.old result dst.new }
{
    signal(expand(file, dst))
}

// The word at a position.
#[unsafe(no_mangle)]
pub extern "C" fn ra_cell(file: &[u8], place: u32) -> u64
    ensures { Coded (CellFound file.now place) result }
{
    cell_code(cell(file, Position(place)))
}

// The rank at a position, or "empty" with the number of stored cells before it.
#[unsafe(no_mangle)]
pub extern "C" fn ra_rank(file: &[u8], place: u32) -> u64
    ensures { Coded (RankFound file.now place) result }
{
    rank_code(rank(file, Position(place)))
}

// The position of a rank.
#[unsafe(no_mangle)]
pub extern "C" fn ra_position(file: &[u8], number: u32) -> u64
    ensures { Coded (PositionFound file.now number) result }
{
    position_code(position(file, Rank(number)))
}
