// The rule of a setting (document 01, "The file"; document 02, S-7): 2 and 3.
ghost use Rattle.std.specs.Prelude.{◌≡◌};
ghost use Rattle.format.specs.Kinds.{codec_of};
ghost use Rattle.format.specs.Answers.{signal_of};
ghost use Rattle.format.specs.Calls.{setting_number};
ghost use Rattle.kinds.specs.Kind.{kind_number};

use super::kind::Kind;
use format::{Refusal, Setting};

// Width and step are allowed for the kind.
fn allowed(kind: Kind, width: u32, step: u32) -> bool
    ensures { result ≡ (codec_of (kind_number kind) width step).allowed }
{
    match kind {
        Kind::Runs => runs::setting::allowed(width, step),
        Kind::Positions => positions::setting::allowed(width, step),
        Kind::BaseOffset => base_offset::setting::allowed(width, step),
        Kind::Jumps => jumps::setting::allowed(width, step),
        Kind::PagedRuns => paged_runs::setting::allowed(width, step),
        Kind::PointedJumps => pointed_jumps::setting::allowed(width, step),
    }
}

// A setting is refused with 2 where the kind is none of 1 to 6, and with 3 where width or step are not allowed for it.
pub fn check_setting(s: Setting) -> Result<(), Refusal>
    ensures { signal_of result ≡ setting_number s 0 }
{
    let kind = Kind::try_from(s.kind)?;
    if !allowed(kind, s.width, s.step) {
        return Err(Refusal::Setting);
    }
    Ok(())
}
