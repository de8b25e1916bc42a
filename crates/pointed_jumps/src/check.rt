// The parts, checked in one pass that stops at each rank that a pointer names.
ghost use Rattle.std.specs.Prelude.{◌≡◌, ◌^◌};
ghost use Rattle.format.specs.Tools.{both};
ghost use Rattle.format.specs.PointedJumps.{pointed_kind};
ghost use Rattle.parts.specs.Holds.{Counted, parts_right};
ghost use Rattle.jump_pass.specs.Pass.{passes_from};
ghost use Rattle.pointed_jumps.specs.Pointed.{pointed_right};

use super::pointers::{pointer_count, pointers_at};
use differences::groups::difference;
use format::View;
use jump_pass::check::{Passed, pass_span, starts_right};
use wire::get_u32;

// One pass over all ranks. A pointer is right where as many jumps as it counts lie before its rank, and a jump at it.
fn pass(file: &[u8], v: View, width: u32, reach: usize) -> bool
    requires { Counted (pointed_kind v.width v.step) file.now v × (width ≡ v.width) × (reach ≡ 256 ^ width) }
    ensures { result ≡ both (passes_from v file.now 0 0 0) (pointed_right file.now v) }
{
    let second = v.second as usize;
    let words = v.words as usize;
    let jumps = v.firsts as usize;
    let step = v.step as usize;
    let pointers = pointers_at(second, width, v.words);
    let count = pointer_count(v.firsts, v.step) as usize;
    let mut s = Passed {
        least: 0,
        left: jumps,
    };
    let mut rank: usize = 0;
    for k in 0..count {
        let next = get_u32(file, pointers + 4 * k) as usize;
        if next < rank || words <= next {
            return false;
        }
        let Some(t) = pass_span(file, second, width, reach, rank, next, s) else {
            return false;
        };
        if t.left + k * step != jumps || difference(file, second, next, width) != 0 {
            return false;
        }
        s = t;
        rank = next;
    }
    let Some(end) = pass_span(file, second, width, reach, rank, words, s) else {
        return false;
    };
    end.left == 0 && end.least < v.cells as usize + reach
}

// The parts are those of rising positions below cells, as many as the words, with the pointers of their jumps.
pub fn parts_right(file: &[u8], v: View) -> bool
    requires { Counted (pointed_kind v.width v.step) file.now v }
    ensures { result ≡ parts_right (pointed_kind v.width v.step) file.now v }
{
    if !starts_right(file, v) {
        return false;
    }
    if v.width == 1 {
        return pass(file, v, 1, 256);
    }
    pass(file, v, 2, 65536)
}
