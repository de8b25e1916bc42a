// How long the lister's text of an accepted file is.
ghost use Rattle.std.specs.Prelude.{◌≡◌, ◌≤◌, length};
ghost use Rattle.format.specs.Accepted.{positions_of, kept_of};
ghost use Rattle.format.specs.Lister.{most_listed, rank_lines, file_lines};
ghost use Rattle.parts.specs.Holds.{ViewOf};

use format::View;
use kinds::steps::{next, start};
use text::line_length;
use wire::get_u32;

// The lines of the ranks.
fn ranks_length(file: &[u8], v: View) -> usize
    requires { ViewOf file.now v × (length file.now ≤ most_listed) }
    ensures { result ≡ length (rank_lines 0 (positions_of file.now) (kept_of file.now)) }
{
    let words = v.place as usize;
    let mut c = start(file, v);
    let mut total: usize = 0;
    for rank in 0..v.words {
        let word = get_u32(file, words + 4 * rank as usize);
        total += line_length(rank, c.at, word);
        c = next(file, v, c);
    }
    total
}

// All lines.
pub fn file_length(file: &[u8], v: View) -> usize
    requires { ViewOf file.now v × (length file.now ≤ most_listed) }
    ensures { result ≡ length (file_lines file.now) }
{
    line_length(v.kind, v.cells, v.words) + ranks_length(file, v)
}
