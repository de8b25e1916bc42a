// The lookups over the header's own counts, nothing checked: for a file that was accepted once and is asked many times. Bytes shorter than a header
// open nothing: 8.
ghost use Rattle.kinds.specs.Search.{placed_by_rank};
ghost use Rattle.search.specs.Searched.{PositionSearched};
ghost use Rattle.c_values.specs.Code.{Coded};
ghost use Rattle.exports.specs.Unchecked.{cell_unchecked, rank_unchecked, position_unchecked};

use c_values::code::{cell_code, found_code, position_code, rank_code};
use format::{Position, Rank, Refusal, View};
use header::view::{read_view, whole_header};
use kinds::search::{placed_by_rank, placed_position};
use search::{cell_in, position_in, rank_in};

// The word at a position.
#[unsafe(no_mangle)]
pub extern "C" fn ra_opened_cell(file: &[u8], place: u32) -> u64
    ensures { Coded (cell_unchecked file.now place) result }
{
    if !whole_header(file) {
        return cell_code(Err(Refusal::Beyond));
    }
    cell_code(cell_in(file, read_view(file), Position(place)))
}

// The rank at a position, or "empty" with the number of stored cells before it.
#[unsafe(no_mangle)]
pub extern "C" fn ra_opened_rank(file: &[u8], place: u32) -> u64
    ensures { Coded (rank_unchecked file.now place) result }
{
    if !whole_header(file) {
        return rank_code(Err(Refusal::Beyond));
    }
    let v = read_view(file);
    let answer = rank_in(file, v, Position(place));
    rank_code(answer)
}

// The code of a position in a kind where the rank gives its place: no search is compiled in.
fn placed_code(file: &[u8], v: View, r: Rank) -> u64
    requires { placed_by_rank v.kind }
    ensures { Coded (PositionSearched file.now v r.0) result }
{
    if v.words <= r.0 {
        return position_code(Err(Refusal::Beyond));
    }
    found_code(placed_position(file, v, r), v.cells)
}

// The position of a rank.
#[unsafe(no_mangle)]
pub extern "C" fn ra_opened_position(file: &[u8], number: u32) -> u64
    ensures { Coded (position_unchecked file.now number) result }
{
    if !whole_header(file) {
        return position_code(Err(Refusal::Beyond));
    }
    let v = read_view(file);
    if placed_by_rank(v.kind) {
        return placed_code(file, v, Rank(number));
    }
    position_code(position_in(file, v, Rank(number)))
}
