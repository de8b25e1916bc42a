// The calls that hand back a part of the caller's bytes: for C, where the part stands.
ghost use Rattle.std.specs.Prelude.{◌≡◌};
ghost use Rattle.format.specs.Answers.{cell_says};
ghost use Rattle.c_values.specs.Code.{coded};
ghost use Rattle.exports.specs.Handed.{ranks_answer, shorter_answer};

use c_values::code::cell_code;
use format::{Rank, Refusal};
use lent_parts::ranks::check_ranks;
use lent_parts::shorter::check_shorter;

// Where the words of ranks `from` up to but not including `to` begin.
fn ranks_from(file: &[u8], from: u32, to: u32) -> Result<u32, Refusal>
    ensures { cell_says result ≡ ranks_answer file.now from to }
{
    let v = check_ranks(file, Rank(from), Rank(to))?;
    let at = v.place as usize + 4 * from as usize;
    Ok(at as u32)
}

// The offset of the stored bytes of ranks `from` up to but not including `to`.
#[unsafe(no_mangle)]
pub extern "C" fn ra_ranks(file: &[u8], from: u32, to: u32) -> u64
    ensures { result ≡ coded (ranks_answer file.now from to) }
{
    cell_code(ranks_from(file, from, to))
}

// The shorter of two files: 0 the first, 1 the second.
fn shorter_of<'a>(first: &'a [u8], second: &'a [u8]) -> Result<u32, Refusal>
    ensures { cell_says result ≡ shorter_answer first.now second.now }
{
    check_shorter(first, second)?;
    if second.len() < first.len() {
        return Ok(1);
    }
    Ok(0)
}

// Which of two files of one picture is the shorter: 0 the first, 1 the second; the first on equal length.
#[unsafe(no_mangle)]
pub extern "C" fn ra_shorter<'a>(first: &'a [u8], second: &'a [u8]) -> u64
    ensures { result ≡ coded (shorter_answer first.now second.now) }
{
    cell_code(shorter_of(first, second))
}
