// The check of kind 5's parts: level 0, then the levels above it.
ghost use Rattle.std.specs.Prelude.{◌≡◌};
ghost use Rattle.format.specs.PagedRuns.{pages_kind};
ghost use Rattle.parts.specs.Holds.{Counted, parts_right};

use format::View;
use levels::check::upper_right;
use page_walk::check::runs_right;

// The parts are those of rising positions below cells, as many as the words.
pub fn parts_right(file: &[u8], v: View) -> bool
    requires { Counted (pages_kind v.width v.step) file.now v }
    ensures { result ≡ parts_right (pages_kind v.width v.step) file.now v }
{
    if runs_right(file, v) {
        return upper_right(file, v);
    }
    false
}
