// A file put out: what it measures, whether it goes, and its header.
#![tactic(auto)]

pub mod header_out;

ghost use Rattle.std.specs.Prelude.{◌≡◌, true, ◌≤◌, IfSome, IfOk};
ghost use Rattle.format.specs.Answers.{signal_of};
ghost use Rattle.format.specs.Kinds.{setting_allowed};
ghost use Rattle.kinds.specs.Coding.{coder, counted_by};
ghost use Rattle.layout.specs.Laid.{Fitting, total_of, out_of, measured_by, Bounded};

use format::{HEADER, Refusal, Setting};
use kinds::coding::{counted, ended, sizes};
use parts::{Encoder, Sizes};

// The sizes with the end, by an encoder that has taken all positions; none where an offset does not fit its width.
pub fn measured(s: Setting, e: Encoder) -> Option<Sizes>
    requires { (setting_allowed s ≡ true) × (e.fits ≡ true → Bounded s e) }
    ensures { result ≡ measured_by s e }
{
    if !e.fits {
        return None;
    }
    Some(sizes(s, ended(s, e)))
}

// The sizes of a file of so many ranks and runs, in a kind whose sizes follow from these.
pub fn by_counts(s: Setting, ranks: u32, runs: u32) -> Sizes
    requires { (setting_allowed s ≡ true) × (ranks ≤ 16777216) × (runs ≤ 16777216) }
    ensures { result ≡ (coder s).sizes (counted_by s.kind ranks runs) }
{
    sizes(s, counted(s.kind, ranks, runs))
}

// The file's length.
pub fn total(z: Sizes) -> usize
    requires { Fitting z }
    ensures { result ≡ total_of z }
{
    HEADER + (z.first + z.second + 4 * z.words) as usize
}

// The sizes of a file that goes out: 9 where an offset does not fit its width, 10 where `room` bytes are too few.
pub fn going(m: Option<Sizes>, room: usize) -> Result<Sizes, Refusal>
    requires { IfSome m Fitting }
    ensures { (signal_of result ≡ out_of m room) × IfOk result (λ z. m ≡ Some z) }
{
    let z = m.ok_or(Refusal::Unfit)?;
    if room < total(z) {
        return Err(Refusal::Small);
    }
    Ok(z)
}
