// A box of a file's picture, to words in row order.
ghost use Rattle.format.specs.Answers.{signal_of};
ghost use Rattle.format.specs.Box.{Boxed};

use box_region::count::box_count;
use box_rows::put_box;
use checked::check;
use format::{Coordinates, Refusal};
use header::view::read_dimensions;

// The words of the box in the destination's first elements, in row order; refused with 1 to 6, then 8, then 10. `low` and `high` are inclusive.
pub fn box_words(
    file: &[u8],
    low: Coordinates,
    high: Coordinates,
    dst: &mut [u32],
) -> Result<(), Refusal>
    ensures { Boxed file.now low high dst.old (signal_of result) dst.new }
{
    let v = check(file)?;
    let d = read_dimensions(file);
    let count = box_count(d, low, high).ok_or(Refusal::Beyond)?;
    if dst.len() < count as usize {
        return Err(Refusal::Small);
    }
    put_box(file, v, d, low, high, dst);
    Ok(())
}
