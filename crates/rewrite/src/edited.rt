// The positions of a file after an edit, measured and put out.
ghost use Rattle.std.specs.Prelude.{◌≡◌, true, ◌≤◌, length};
ghost use Rattle.format.specs.Kinds.{setting_allowed};
ghost use Rattle.format.specs.Accepted.{positions_of};
ghost use Rattle.stores.specs.Put.{put};
ghost use Rattle.parts.specs.Holds.{ViewOf};
ghost use Rattle.parts.specs.Encoder.{begun};
ghost use Rattle.kinds.specs.Coding.{firsts, seconds, Apart};
ghost use Rattle.layout.specs.Laid.{Measures};
ghost use Rattle.edits.specs.Edit.{edited, EditOf};

use super::walk::{measure_added, measure_ranks, put_added, put_ranks, skip};
use edits::Edit;
use format::{Setting, View};
use kinds::coding::finish;
use kinds::steps;
use layout::measured;
use parts::Sizes;
use parts::encode::begin;

// What the edited positions measure.
pub fn measure(file: &[u8], v: View, x: Edit, s: Setting) -> Option<Sizes>
    requires { ViewOf file.now v × EditOf file.now x × (setting_allowed s ≡ true) }
    ensures { Measures s v.cells (edited x (positions_of file.now)) result }
{
    let c = steps::start(file, v);
    let e = begin(0, 0);
    let front = measure_ranks(file, v, s, c, e, x.before);
    let e = measure_added(s, front.e, x);
    let c = skip(file, v, front.c, x.after - x.before);
    let all = measure_ranks(file, v, s, c, e, v.words - x.after);
    measured(s, all.e)
}

// The parts of the edited positions: the first at `start`, the second at `second`. Of a kind whose first part is made of the second, only the second.
pub fn put_parts(
    dst: &mut [u8],
    file: &[u8],
    v: View,
    x: Edit,
    s: Setting,
    start: usize,
    second: usize,
)
    requires { ViewOf file.now v × EditOf file.now x × (setting_allowed s ≡ true) × Apart s (begun start second) (edited x (positions_of file.now)) (length dst.old) × (start ≤ 4294967296) × (second ≤ 4294967296) }
    ensures { dst.new ≡ put (put dst.old start (firsts s (begun start second) (edited x (positions_of file.now)))) second (seconds s (begun start second) (edited x (positions_of file.now))) }
{
    let c = steps::start(file, v);
    let e = begin(start, second);
    let front = put_ranks(dst, file, v, s, c, e, x.before);
    let e = put_added(dst, s, front.e, x);
    let c = skip(file, v, front.c, x.after - x.before);
    let all = put_ranks(dst, file, v, s, c, e, v.words - x.after);
    finish(dst, s, all.e);
}
