// The lookups over a view of a file: here a place that a search found becomes an answer. `rank_in`, `position_in` and `cell_in` are safe on any bytes and
// any view.
#![tactic(auto)]

ghost use Rattle.std.specs.Prelude.{◌≡◌, ◌<◌, get_or};
ghost use Rattle.format.specs.Answers.{cell_says, rank_says, position_says};
ghost use Rattle.format.specs.Accepted.{positions_of};
ghost use Rattle.parts.specs.Holds.{ViewOf};
ghost use Rattle.search.specs.Searched.{rank_from, position_from, CellSearched, RankSearched, PositionSearched};

use format::{Position, Rank, RankAnswer, Refusal, View};
use kinds::search::{find, position_of};
use parts::Found;
use wire::load_u32;

// A place as an answer: a rank, or "empty" with the number of stored cells before.
pub fn rank_answer(found: Found) -> RankAnswer
    ensures { rank_says (Ok result) ≡ rank_from found }
{
    if found.here {
        return RankAnswer::Rank(Rank(found.below));
    }
    RankAnswer::Empty(Rank(found.below))
}

// The rank at a position, or "empty" with the number of stored cells before it.
pub fn rank_in(file: &[u8], v: View, p: Position) -> Result<RankAnswer, Refusal>
    ensures { RankSearched file.now v p.0 (rank_says result) }
{
    if v.cells <= p.0 {
        return Err(Refusal::Beyond);
    }
    Ok(rank_answer(find(file, v, p)))
}

// A number that was found for a position: 8 where the picture has no such cell, which only unfit bytes give.
fn position_below(p: u64, cells: u32) -> Result<Position, Refusal>
    ensures { position_says result ≡ position_from p cells }
{
    if cells as u64 <= p {
        return Err(Refusal::Beyond);
    }
    Ok(Position(p as u32))
}

// The position of a rank.
pub fn position_in(file: &[u8], v: View, r: Rank) -> Result<Position, Refusal>
    ensures { PositionSearched file.now v r.0 (position_says result) }
{
    if v.words <= r.0 {
        return Err(Refusal::Beyond);
    }
    position_below(position_of(file, v, r), v.cells)
}

// The position of a rank of an accepted file.
pub fn stored_position(file: &[u8], v: View, r: Rank) -> Position
    requires { ViewOf file.now v × (r.0 < v.words) }
    ensures { (result.0 ≡ get_or (positions_of file.now) r.0 0) × (result.0 < v.cells) }
{
    Position(position_of(file, v, r) as u32)
}

// The word at a position.
pub fn cell_in(file: &[u8], v: View, p: Position) -> Result<u32, Refusal>
    ensures { CellSearched file.now v p.0 (cell_says result) }
{
    let RankAnswer::Rank(rank) = rank_in(file, v, p)? else {
        return Ok(v.empty);
    };
    let at = v.place as usize + 4 * rank.0 as usize;
    Ok(load_u32(file, at))
}
