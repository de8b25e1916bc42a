// A box of a picture, to words in row order.
ghost use Rattle.std.specs.Prelude.{◌≡◌};
ghost use Rattle.format.specs.Signals.{BEYOND, signal_number, or_else};
ghost use Rattle.format.specs.Answers.{signal_of};
ghost use Rattle.format.specs.Accepted.{check_number};
ghost use Rattle.format.specs.Box.{Boxed};

use c_values::code::signal;
use c_values::extents::as_four;
use format::Refusal;
use reading::boxes::box_words;
use reading::check::check;

// A corner that has not four numbers: 8, after the file's 1 to 6.
fn corner_refused(file: &[u8]) -> Refusal
    ensures { signal_number result ≡ or_else (check_number file.now) BEYOND }
{
    match check(file) {
        Ok(()) => Refusal::Beyond,
        Err(refusal) => refusal,
    }
}

// The words of the box into dst.
fn put_words(file: &[u8], low: &[u32], high: &[u32], dst: &mut [u32]) -> Result<(), Refusal>
    ensures { Boxed file.now low.now high.now dst.old (signal_of result) dst.new }
{
    let Some(from) = as_four(low) else {
        return Err(corner_refused(file));
    };
    let Some(to) = as_four(high) else {
        return Err(corner_refused(file));
    };
    box_words(file, from, to, dst)
}

// The words of the box, both corners inclusive. A corner that has not four numbers is 8.
#[unsafe(no_mangle)]
pub extern "C" fn ra_box(file: &[u8], low: &[u32], high: &[u32], dst: &mut [u32]) -> u32
    ensures { Boxed file.now low.now high.now dst.old result dst.new }
{
    signal(put_words(file, low, high, dst))
}
