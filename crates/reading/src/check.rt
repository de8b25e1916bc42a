// The check of a file (document 01, "The signal list", 1 to 6).
ghost use Rattle.format.specs.Answers.{signal_of};
ghost use Rattle.format.specs.Accepted.{Checked};

use format::Refusal;

// Refused with the first of 1 to 6 that applies.
pub fn check(file: &[u8]) -> Result<(), Refusal>
    ensures { Checked file.now (signal_of result) }
{
    checked::check(file)?;
    Ok(())
}
