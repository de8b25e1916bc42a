// What the lister prints for an input (document 01, "The sample picture").
#![tactic(auto)]

pub mod input;
pub mod measure;

ghost use Rattle.std.specs.Prelude.{◌≤◌, length};
ghost use Rattle.format.specs.Accepted.{positions_of, kept_of};
ghost use Rattle.format.specs.Lister.{most_listed, rank_lines, file_lines, refused_line, listing};
ghost use Rattle.parts.specs.Holds.{ViewOf};
ghost use Rattle.text.specs.Text.{Room, TextPut, Offered};

use checked::check;
use format::View;
use kinds::steps::{next, start};
use measure::file_length;
use text::{put_bytes, put_line, put_number};
use wire::get_u32;

// A text that is at hand, into a buffer that has room for it; its length.
fn offer(text: &[u8], out: &mut [u8]) -> usize
    ensures { Offered text.now out.old result out.new }
{
    if out.len() < text.len() {
        return text.len();
    }
    put_bytes(out, 0, text)
}

// The line of a refused file.
fn put_refused(out: &mut [u8], number: u32) -> usize
    requires { Room (refused_line number) out.old 0 }
    ensures { TextPut (refused_line number) out.old 0 result out.new }
{
    let at = put_bytes(out, 0, b"refused ");
    put_number(out, at, number, b'\n')
}

// The line of a refused file has at most 19 bytes: it is put together apart.
fn offer_refused(number: u32, out: &mut [u8]) -> usize
    ensures { Offered (refused_line number) out.old result out.new }
{
    let mut line = [0u8; 19];
    let n = put_refused(&mut line, number);
    offer(&line[..n], out)
}

// A line for each rank of an accepted file.
fn put_ranks(file: &[u8], v: View, out: &mut [u8], at: usize) -> usize
    requires { ViewOf file.now v × Room (rank_lines 0 (positions_of file.now) (kept_of file.now)) out.old at }
    ensures { TextPut (rank_lines 0 (positions_of file.now) (kept_of file.now)) out.old at result out.new }
{
    let words = v.place as usize;
    let mut c = start(file, v);
    let mut to = at;
    for rank in 0..v.words {
        let word = get_u32(file, words + 4 * rank as usize);
        to = put_line(out, to, rank, c.at, word);
        c = next(file, v, c);
    }
    to
}

// The lines of an accepted file.
fn put_file(file: &[u8], v: View, out: &mut [u8]) -> usize
    requires { ViewOf file.now v × Room (file_lines file.now) out.old 0 }
    ensures { TextPut (file_lines file.now) out.old 0 result out.new }
{
    let at = put_line(out, 0, v.kind, v.cells, v.words);
    put_ranks(file, v, out, at)
}

// The lines of an accepted file, into a buffer that has room for them; their length.
#[tactic(auto, using(crate::proofs::Listed::offered_small))]
fn offer_file(file: &[u8], v: View, out: &mut [u8]) -> usize
    requires { ViewOf file.now v × (length file.now ≤ most_listed) }
    ensures { Offered (file_lines file.now) out.old result out.new }
{
    let total = file_length(file, v);
    if out.len() < total {
        return total;
    }
    put_file(file, v, out)
}

// What the lister prints, in the first bytes of out where it fits; how many bytes it has. An input longer than 65,536 bytes is too long.
// No text is longer than 426,000 bytes (proofs/Listed.antt, `listing-length`).
pub fn list(input: &[u8], out: &mut [u8]) -> usize
    ensures { Offered (listing input.now) out.old result out.new }
{
    if 65536 < input.len() {
        return offer(b"too long\n", out);
    }
    match check(input) {
        Ok(v) => offer_file(input, v, out),
        Err(refusal) => offer_refused(u32::from(refusal), out),
    }
}
