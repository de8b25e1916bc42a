// One cell of a file written.
ghost use Rattle.std.specs.Prelude.{◌<◌};
ghost use Rattle.format.specs.Answers.{signal_of};
ghost use Rattle.format.specs.Calls.{Wrote};
ghost use Rattle.parts.specs.Holds.{ViewOf};
ghost use Rattle.edits.specs.Edit.{Writes};

use checked::check;
use edits::Edit;
use format::{Position, RankAnswer, Refusal, View};
use kinds::search::find;
use recode::recoded;
use search::rank_answer;

// Which ranks go into the new file, and whether the cell is a new one among them.
fn edit_of(file: &[u8], v: View, p: Position, word: u32) -> Edit
    requires { ViewOf file.now v × (p.0 < v.cells) }
    ensures { Writes file.now p.0 word result }
{
    let added = (word != v.empty).then_some(p);
    let found = find(file, v, p);
    let answer = rank_answer(found);
    let RankAnswer::Rank(rank) = answer else {
        return Edit {
            before: found.below,
            added,
            after: found.below,
        };
    };
    Edit {
        before: rank.0,
        added,
        after: rank.0 + 1,
    }
}

// The file of the words after the write in the destination's first bytes; refused with 1 to 6, then 8, 9, 10. Writing E empties a cell.
pub fn write(file: &[u8], p: Position, word: u32, dst: &mut [u8]) -> Result<(), Refusal>
    ensures { Wrote file.now p.0 word dst.old (signal_of result) dst.new }
{
    let v = check(file)?;
    if v.cells <= p.0 {
        return Err(Refusal::Beyond);
    }
    let x = edit_of(file, v, p, word);
    recoded(file, v, x, word, v.setting(), dst)
}
