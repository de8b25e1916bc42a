// The three lookups on a file's bytes: the complete check first, then the search.
ghost use Rattle.format.specs.Answers.{cell_says, rank_says, position_says};
ghost use Rattle.format.specs.Lookups.{CellFound, RankFound, PositionFound};

use checked::check;
use format::{Position, Rank, RankAnswer, Refusal};
use search::{cell_in, position_in, rank_in};

// The word at a position.
pub fn cell(file: &[u8], p: Position) -> Result<u32, Refusal>
    ensures { CellFound file.now p.0 (cell_says result) }
{
    let v = check(file)?;
    cell_in(file, v, p)
}

// The rank at a position, or "empty" with the number of stored cells before it.
pub fn rank(file: &[u8], p: Position) -> Result<RankAnswer, Refusal>
    ensures { RankFound file.now p.0 (rank_says result) }
{
    let v = check(file)?;
    rank_in(file, v, p)
}

// The position of a rank.
pub fn position(file: &[u8], r: Rank) -> Result<Position, Refusal>
    ensures { PositionFound file.now r.0 (position_says result) }
{
    let v = check(file)?;
    position_in(file, v, r)
}
