// A lookup's answer in 64 bits: the low 32 the value, the high 32 the code: 0 given, the number of a refusal, 255 "empty", whose value is the number of
// stored cells before.
ghost use Rattle.std.specs.Prelude.{◌≡◌, ltb};
ghost use Rattle.format.specs.Tools.{pick};
ghost use Rattle.format.specs.Signals.{BEYOND};
ghost use Rattle.format.specs.Answers.{refused, given, signal_of};
ghost use Rattle.c_values.specs.Code.{coded, code_and_value, CodeOf, rank_given, position_given};

use format::{Position, RankAnswer, Refusal};

// The number of a call: 0 where it is accepted.
pub fn signal(answer: Result<(), Refusal>) -> u32
    ensures { result ≡ signal_of answer }
{
    match answer {
        Ok(()) => 0,
        Err(refusal) => u32::from(refusal),
    }
}

pub fn code_and_value(code: u32, value: u32) -> u64
    ensures { result ≡ code_and_value code value }
{
    code as u64 * 4294967296 + value as u64
}

// An answer's refusal is whatever has a number: a `Refusal`, or the number itself.
pub fn cell_code<R: Into<u32>>(answer: Result<u32, R>) -> u64
    ensures { CodeOf given R.converts answer result }
{
    match answer {
        Ok(x) => code_and_value(0, x),
        Err(refusal) => code_and_value(refusal.into(), 0),
    }
}

pub fn rank_code<R: Into<u32>>(answer: Result<RankAnswer, R>) -> u64
    ensures { CodeOf rank_given R.converts answer result }
{
    match answer {
        Ok(RankAnswer::Rank(rank)) => code_and_value(0, rank.0),
        Ok(RankAnswer::Empty(before)) => code_and_value(255, before.0),
        Err(refusal) => cell_code(Err(refusal)),
    }
}

pub fn position_code<R: Into<u32>>(answer: Result<Position, R>) -> u64
    ensures { CodeOf position_given R.converts answer result }
{
    cell_code(answer.map(|p| p.0))
}

// The code of a number that was found for a position: 8 where the picture has no such cell. Made without an answer, so that one comparison alone waits for the
// number.
pub fn found_code(at: u64, cells: u32) -> u64
    ensures { result ≡ coded (pick (ltb at cells) (given at) (refused BEYOND)) }
{
    if cells as u64 <= at {
        return code_and_value(u32::from(Refusal::Beyond), 0);
    }
    code_and_value(0, at as u32)
}
