// The check of kind 1's parts: the first pair, each pair by the one before, the last pair.
ghost use Rattle.std.specs.Prelude.{◌≡◌};
ghost use Rattle.format.specs.Runs.{runs_kind};
ghost use Rattle.parts.specs.Holds.{Counted, parts_right};

use format::View;
use rises::pairs::pair_falls;
use wire::get_pair;

// The parts are those of rising positions below cells, as many as the words.
pub fn parts_right(file: &[u8], v: View) -> bool
    requires { Counted (runs_kind v.width v.step) file.now v }
    ensures { result ≡ parts_right (runs_kind v.width v.step) file.now v }
{
    if v.firsts == 0 {
        return v.words == 0;
    }
    let more = v.firsts - 1;
    let start = v.start as usize;
    let first = get_pair(file, start);
    let last = get_pair(file, start + 8 * more as usize);
    let end = last.first as u64 + 1;
    (first.second <= first.first)
        & (pair_falls(file, start, more) == 0)
        & (end <= v.cells as u64)
        & (end == last.second as u64 + v.words as u64)
}
