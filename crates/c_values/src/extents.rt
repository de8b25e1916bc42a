// Four numbers of a slice as an array, and dimensions of plain numbers.
ghost use Rattle.std.specs.Prelude.{◌≡◌, length, eqb, IfOk};
ghost use Rattle.format.specs.Tools.{pick};
ghost use Rattle.format.specs.Picture.{most_dimensions};
ghost use Rattle.format.specs.Answers.{signal_of};
ghost use Rattle.c_values.specs.Extents.{dimensions, extents_number};

use format::{Coordinates, DIMS, Dimensions, Refusal};

// The four numbers.
pub fn four(numbers: &[u32]) -> Coordinates
    requires { length numbers.now ≡ most_dimensions }
    ensures { result ≡ numbers.now }
{
    [numbers[0], numbers[1], numbers[2], numbers[3]]
}

// The numbers, where they are four.
pub fn as_four(numbers: &[u32]) -> Option<Coordinates>
    ensures { result ≡ pick (eqb (length numbers.now) most_dimensions) (Some numbers.now) None }
{
    if numbers.len() == DIMS {
        Some(four(numbers))
    } else {
        None
    }
}

// The dimensions of so many extents; 4 where the extents are not four numbers.
pub fn dimensions_of(count: u32, extents: &[u32]) -> Result<Dimensions, Refusal>
    ensures { (signal_of result ≡ extents_number extents.now) × IfOk result (λ d. d ≡ dimensions count extents.now) }
{
    let extents = as_four(extents).ok_or(Refusal::Extent)?;
    Ok(Dimensions { count, extents })
}
