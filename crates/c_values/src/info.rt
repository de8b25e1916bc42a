// What a file's header says, in numbers.
ghost use Rattle.format.specs.Answers.{signal_of};
ghost use Rattle.format.specs.File.{WholeHeader};
ghost use Rattle.c_values.specs.Info.{ToldOut};

use crate::coordinates::put_numbers;
use format::{DIMS, Refusal};
use header::view::{read_dimensions, read_view};

// Kind, width, step, dimension count, cells, E and N, and after these seven the extents. A destination that is shorter is 10.
pub fn put_info(file: &[u8], dst: &mut [u32]) -> Result<(), Refusal>
    requires { WholeHeader file.now }
    ensures { ToldOut file.now dst.old (signal_of result) dst.new }
{
    if dst.len() < 7 + DIMS {
        return Err(Refusal::Small);
    }
    let v = read_view(file);
    let d = read_dimensions(file);
    let e = d.extents;
    let numbers = [
        v.kind, v.width, v.step, d.count, v.cells, v.empty, v.words, e[0], e[1], e[2], e[3],
    ];
    put_numbers(&numbers, dst);
    Ok(())
}
