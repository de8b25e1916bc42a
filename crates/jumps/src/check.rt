// The parts, checked in one pass.
ghost use Rattle.std.specs.Prelude.{◌≡◌};
ghost use Rattle.format.specs.Jumps.{jumps_kind};
ghost use Rattle.parts.specs.Holds.{Counted, parts_right};

use format::View;
use jump_pass::check::{pass, starts_right};

// The parts are those of rising positions below cells, as many as the words.
pub fn parts_right(file: &[u8], v: View) -> bool
    requires { Counted (jumps_kind v.width v.step) file.now v }
    ensures { result ≡ parts_right (jumps_kind v.width v.step) file.now v }
{
    if !starts_right(file, v) {
        return false;
    }
    if v.width == 1 {
        return pass(file, v, 1, 256);
    }
    pass(file, v, 2, 65536)
}
