// Make, write and change: each puts a file into a destination.
ghost use Rattle.format.specs.Answers.{signal_of};
ghost use Rattle.format.specs.Calls.{Made, Wrote, Changed};
ghost use Rattle.c_values.specs.Extents.{dimensions, setting};

use c_values::code::signal;
use c_values::extents::as_four;
use format::{Dimensions, Position, Refusal, Setting};
use kinds::setting::check_setting;
use making::make;
use writing::change::change;
use writing::write::write;

// The file of a picture; extents that are not four numbers are 4, after the setting's 2 and 3.
fn make_file(
    s: Setting,
    dims: u32,
    extents: &[u32],
    empty: u32,
    words: &[u32],
    dst: &mut [u8],
) -> Result<(), Refusal>
    ensures { Made s (dimensions dims extents.now) empty words.now dst.old (signal_of result) dst.new }
{
    let Some(extents) = as_four(extents) else {
        check_setting(s)?;
        return Err(Refusal::Extent);
    };
    let d = Dimensions {
        count: dims,
        extents,
    };
    make(d, empty, words, s, dst)
}

// The file of a picture. Extents that are not four numbers are no picture's.
#[unsafe(no_mangle)]
pub extern "C" fn ra_make(
    kind: u32,
    width: u32,
    step: u32,
    dims: u32,
    extents: &[u32],
    empty: u32,
    words: &[u32],
    dst: &mut [u8],
) -> u32
    ensures { Made (setting kind width step) (dimensions dims extents.now) empty words.now dst.old result dst.new }
{
    let s = Setting { kind, width, step };
    signal(make_file(s, dims, extents, empty, words, dst))
}

// The file after one cell is written.
#[unsafe(no_mangle)]
pub extern "C" fn ra_write(file: &[u8], place: u32, word: u32, dst: &mut [u8]) -> u32
    ensures { Wrote file.now place word dst.old result dst.new }
{
    signal(write(file, Position(place), word, dst))
}

// The file in another setting.
#[unsafe(no_mangle)]
pub extern "C" fn ra_change(file: &[u8], kind: u32, width: u32, step: u32, dst: &mut [u8]) -> u32
    ensures { Changed file.now (setting kind width step) dst.old result dst.new }
{
    signal(change(file, Setting { kind, width, step }, dst))
}
