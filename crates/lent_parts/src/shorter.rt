// The shorter of two files of one picture.
ghost use Rattle.std.specs.Prelude.{◌≡◌};
ghost use Rattle.format.specs.Answers.{signal_of};
ghost use Rattle.format.specs.Shorter.{shorter_number, ShorterPart};

use super::same::same_picture;
use checked::check;
use format::Refusal;

// The first file's 1 to 6, the second's 1 to 6, then 11.
pub fn check_shorter<'a>(first: &'a [u8], second: &'a [u8]) -> Result<(), Refusal>
    ensures { signal_of result ≡ shorter_number first.now second.now }
{
    let v = check(first)?;
    let w = check(second)?;
    if !same_picture(first, v, second, w) {
        return Err(Refusal::Other);
    }
    Ok(())
}

// The shorter, the first on equal length; an empty part on a refusal.
pub fn shorter<'a>(first: &'a [u8], second: &'a [u8]) -> &'a [u8]
    ensures { ShorterPart first.entry second.entry result }
{
    if check_shorter(first, second).is_err() {
        return &first[0..0];
    }
    if second.len() < first.len() {
        return second;
    }
    first
}
