// The words of a file, all cells in row order.
ghost use Rattle.format.specs.Answers.{signal_of};
ghost use Rattle.format.specs.Calls.{Expanded};

use checked::check;
use format::Refusal;
use scatter::expanded;

// The words in the destination's first elements; refused with 1 to 6, then 10.
pub fn expand(file: &[u8], dst: &mut [u32]) -> Result<(), Refusal>
    ensures { Expanded file.now dst.old (signal_of result) dst.new }
{
    let v = check(file)?;
    if dst.len() < v.cells as usize {
        return Err(Refusal::Small);
    }
    expanded(file, v, dst);
    Ok(())
}
