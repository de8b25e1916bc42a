// A picture's words into a file.
#![tactic(auto)]

ghost use Rattle.std.specs.Prelude.{◌≡◌, length};
ghost use Rattle.format.specs.Answers.{signal_of, leaves};
ghost use Rattle.format.specs.Picture.{cells};
ghost use Rattle.format.specs.File.{layout};
ghost use Rattle.format.specs.Calls.{Made};
ghost use Rattle.layout.specs.Laid.{Goes};
ghost use Rattle.making.specs.Known.{picture_number};

use format::{Dimensions, HEADER, Refusal, Setting};
use header::extents::cell_count;
use kinds::coding::put_derived;
use kinds::setting::check_setting;
use layout::going;
use layout::header_out::put_header;
use parts::Sizes;
use picture::{measure, put_out};

// 2, 3, 4 and 7: setting, dimensions, and as many words as cells.
fn check_picture(s: Setting, d: Dimensions, words: usize) -> Result<(), Refusal>
    ensures { signal_of result ≡ picture_number s d words }
{
    check_setting(s)?;
    let cells = cell_count(d).ok_or(Refusal::Extent)?;
    if words != cells as usize {
        return Err(Refusal::Picture);
    }
    Ok(())
}

// The file of the words, with the sizes z.
fn put_picture(dst: &mut [u8], d: Dimensions, empty: u32, words: &[u32], s: Setting, z: Sizes)
    requires { (cells d ≡ length words.now) × Goes s d empty words.now z (length dst.old) }
    ensures { dst.new ≡ leaves 0 (layout s d empty words.now) dst.old }
{
    put_header(dst, s, d, empty, z);
    let second = HEADER + z.first as usize;
    let place = second + z.second as usize;
    put_out(dst, words, empty, s, HEADER, second, place);
    put_derived(dst, s, z, HEADER);
}

// The file in the destination's first bytes; refused with 2, 3, 4, 7, 9, 10.
pub fn make(
    d: Dimensions,
    empty: u32,
    words: &[u32],
    s: Setting,
    dst: &mut [u8],
) -> Result<(), Refusal>
    ensures { Made s d empty words.now dst.old (signal_of result) dst.new }
{
    check_picture(s, d, words.len())?;
    let z = going(measure(words, empty, s), dst.len())?;
    put_picture(dst, d, empty, words, s, z);
    Ok(())
}
