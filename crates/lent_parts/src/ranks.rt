// The stored bytes of a range of ranks, as a part of the caller's file.
ghost use Rattle.std.specs.Prelude.{◌≡◌, ◌+◌, ◌*◌, IfOk};
ghost use Rattle.format.specs.RankRange.{ranks_number, RanksPart};
ghost use Rattle.format.specs.Answers.{signal_of};
ghost use Rattle.parts.specs.Holds.{ViewOf};

use checked::check;
use format::{Rank, Refusal, View};

// The view of a file with the ranks from a up to but not including c: 1 to 6 of the file, then 8 unless a <= c <= N.
pub fn check_ranks(file: &[u8], a: Rank, c: Rank) -> Result<View, Refusal>
    ensures { (signal_of result ≡ ranks_number file.now a.0 c.0) × IfOk result (ViewOf file.now) }
{
    let v = check(file)?;
    if c.0 < a.0 {
        return Err(Refusal::Beyond);
    }
    if v.words < c.0 {
        return Err(Refusal::Beyond);
    }
    Ok(v)
}

// Where the word of a rank stands.
fn word_at(v: View, rank: Rank) -> usize
    ensures { result ≡ v.place + 4 * rank.0 }
{
    v.place as usize + 4 * rank.0 as usize
}

// The stored bytes of these ranks; an empty part on a refusal.
pub fn ranks(file: &[u8], a: Rank, c: Rank) -> &[u8]
    ensures { RanksPart file.entry a.0 c.0 result }
{
    let Ok(v) = check_ranks(file, a, c) else {
        return &file[0..0];
    };
    let from = word_at(v, a);
    let to = word_at(v, c);
    &file[from..to]
}
