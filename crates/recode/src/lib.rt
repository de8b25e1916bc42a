// A checked file, with one cell laid over it, put out in a setting.
#![tactic(auto)]

pub mod counted;

ghost use Rattle.std.specs.Prelude.{◌≡◌, true, length};
ghost use Rattle.format.specs.Answers.{signal_of, leaves};
ghost use Rattle.format.specs.Kinds.{setting_allowed};
ghost use Rattle.format.specs.File.{layout};
ghost use Rattle.format.specs.Accepted.{dimensions_of, empty_of};
ghost use Rattle.parts.specs.Holds.{ViewOf};
ghost use Rattle.layout.specs.Laid.{Goes};
ghost use Rattle.recode.specs.Recoded.{words_after, Recodes, Recoded};

use counted::sized;
use edits::Edit;
use edits::words::put_words;
use format::{HEADER, Refusal, Setting, View};
use header::view::read_dimensions;
use kinds::coding::put_derived;
use layout::going;
use layout::header_out::put_header;
use parts::Sizes;
use rewrite::edited::put_parts;

// The file of the edited cells, whose sizes are z.
fn put_recoded(dst: &mut [u8], file: &[u8], v: View, x: Edit, word: u32, s: Setting, z: Sizes)
    requires { ViewOf file.now v × Recodes file.now x word
        × Goes s (dimensions_of file.now) (empty_of file.now) (words_after file.now x word) z (length dst.old) }
    ensures { dst.new ≡ leaves 0
        (layout s (dimensions_of file.now) (empty_of file.now) (words_after file.now x word)) dst.old }
{
    put_header(dst, s, read_dimensions(file), v.empty, z);
    let second = HEADER + z.first as usize;
    put_parts(dst, file, v, x, s, HEADER, second);
    put_words(dst, second + z.second as usize, file, v, x, word);
    put_derived(dst, s, z, HEADER);
}

// The file in the destination's first bytes, or 9, 10.
pub fn recoded(
    file: &[u8],
    v: View,
    x: Edit,
    word: u32,
    s: Setting,
    dst: &mut [u8],
) -> Result<(), Refusal>
    requires { ViewOf file.now v × Recodes file.now x word × (setting_allowed s ≡ true) }
    ensures { Recoded file.now x word s dst.old (signal_of result) dst.new }
{
    let z = going(sized(file, v, x, s), dst.len())?;
    put_recoded(dst, file, v, x, word, s, z);
    Ok(())
}
