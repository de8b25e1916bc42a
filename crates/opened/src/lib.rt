// The opened file (document 01, "The calls"): it refers to the caller's bytes and keeps the header's numbers. The lookups through it search without
// checking again.
#![tactic(auto)]

ghost use Rattle.std.specs.Prelude.{◌≡◌};
ghost use Rattle.format.specs.Answers.{cell_says, rank_says, position_says};
ghost use Rattle.format.specs.Opened.{opening, OpeningOf, OpenedCell, OpenedRank, OpenedPosition};
ghost use Rattle.opened.specs.Kept.{Kept, over, file_of};

use checked::{check, no_view};
use format::{Position, Rank, RankAnswer, Refusal, View};

// The bytes and the header's numbers of an accepted file; of a refused one no bytes, and all counts 0.
#[derive(Clone, Copy)]
pub struct Opened<'a> {
    pub bytes: &'a [u8],
    pub view: View,
}

// The header's numbers, all 0 where the file is refused: opening cannot fail (document 01), and a kind of 0 tells of it.
#[tactic(auto, using(crate::proofs::Openings::refused_view))]
fn opened_view(file: &[u8]) -> View
    ensures { result ≡ (opening file.now).view }
{
    match check(file) {
        Ok(view) => view,
        Err(_) => no_view(),
    }
}

// The file itself, or no bytes of it where the numbers are those of a refusal: no kind is 0.
fn opened_bytes<'a>(file: &'a [u8], v: View) -> &'a [u8]
    ensures { Kept file.entry v result }
{
    if v.kind == 0 {
        return &file[0..0];
    }
    file
}

// Opens a file: the complete check first. Check is the companion call that says why a file is refused.
pub fn open<'a>(file: &'a [u8]) -> Opened<'a>
    ensures { OpeningOf file.entry result.bytes result.view }
{
    let view = opened_view(file);
    let bytes = opened_bytes(file, view);
    Opened { bytes, view }
}

// The word at a position; 8 where the opening was refused.
fn cell_within(file: &[u8], v: View, p: Position) -> Result<u32, Refusal>
    ensures { OpenedCell (over file.entry v) p.0 (cell_says result) }
{
    if v.kind == 0 {
        return Err(Refusal::Beyond);
    }
    search::cell_in(file, v, p)
}

// The rank at a position, or "empty" with the number of stored cells before it; 8 where the opening was refused.
fn rank_within(file: &[u8], v: View, p: Position) -> Result<RankAnswer, Refusal>
    ensures { OpenedRank (over file.entry v) p.0 (rank_says result) }
{
    if v.kind == 0 {
        return Err(Refusal::Beyond);
    }
    search::rank_in(file, v, p)
}

// The position of a rank; 8 where the opening was refused.
fn position_within(file: &[u8], v: View, r: Rank) -> Result<Position, Refusal>
    ensures { OpenedPosition (over file.entry v) r.0 (position_says result) }
{
    if v.kind == 0 {
        return Err(Refusal::Beyond);
    }
    search::position_in(file, v, r)
}

// The word at a position, through the opened file.
pub fn cell<'a>(o: Opened<'a>, p: Position) -> Result<u32, Refusal>
    ensures { OpenedCell (file_of o.entry) p.0 (cell_says result) }
{
    cell_within(o.bytes, o.view, p)
}

// The rank at a position, or "empty" with the number of stored cells before it, through the opened file.
pub fn rank<'a>(o: Opened<'a>, p: Position) -> Result<RankAnswer, Refusal>
    ensures { OpenedRank (file_of o.entry) p.0 (rank_says result) }
{
    rank_within(o.bytes, o.view, p)
}

// The position of a rank, through the opened file.
pub fn position<'a>(o: Opened<'a>, r: Rank) -> Result<Position, Refusal>
    ensures { OpenedPosition (file_of o.entry) r.0 (position_says result) }
{
    position_within(o.bytes, o.view, r)
}
