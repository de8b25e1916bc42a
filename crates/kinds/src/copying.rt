// Ranks of a file put out by the kind's own copying, where file and setting are of kinds that have one.
ghost use Rattle.std.specs.Prelude.{◌≡◌, true, length};
ghost use Rattle.format.specs.Kinds.{setting_allowed};
ghost use Rattle.parts.specs.Holds.{ViewOf};
ghost use Rattle.parts.specs.Cursor.{walked_as};
ghost use Rattle.parts.specs.Batch.{Along, RoomAll};
ghost use Rattle.parts.specs.Carried.{carried, PutAs, Reached};
ghost use Rattle.kinds.specs.Steps.{next_of};
ghost use Rattle.kinds.specs.Coding.{coder};
ghost use Rattle.kinds.specs.Copying.{copies_jumps, copies_to};

use super::kind::Kind;
use super::steps::{by_walk, stores_runs};
use format::{Setting, View};
use parts::walk::Walk;
use parts::{Cursor, Encoder};

// Whether ranks of a file are copied to one of a setting as jumps and differences: both have them, of one width.
pub fn copies_jumps(v: View, s: Setting) -> bool
    ensures { result ≡ true → copies_jumps v s }
{
    // The kinds that have jumps are those that are walked along
    by_walk(v.kind) && by_walk(s.kind) && s.width == v.width
}

// Whether ranks of a file are copied to one of a setting: so, or as runs to the same kind of runs.
pub fn copies(v: View, s: Setting) -> bool
    ensures { result ≡ true → copies_to v s }
{
    if stores_runs(v.kind) {
        return s.kind == v.kind;
    }
    copies_jumps(v, s)
}

// The next n ranks of an accepted file, copied.
pub fn copy_ranks(
    dst: &mut [u8],
    file: &[u8],
    v: View,
    s: Setting,
    c: Cursor,
    e: Encoder,
    n: u32,
) -> Walk
    requires { (setting_allowed s ≡ true) × copies_to v s × ViewOf file.now v × Reached (next_of file.now v) v.words c n
        × Along e (walked_as (next_of file.now v) c n) × RoomAll (coder s) e (walked_as (next_of file.now v) c n) (length dst.old) }
    ensures { PutAs (next_of file.now v) (coder s) c e n dst.old result dst.new }
{
    match Kind::try_from(v.kind) {
        Ok(Kind::Runs) => runs_copy::copy::put_runs(dst, file, v, s.width, s.step, c, e, n),
        Ok(Kind::PagedRuns) => pages_copy::put_runs(dst, file, v, s.width, s.step, c, e, n),
        _ => jump_copy::put_ranks(dst, file, v, c, e, n),
    }
}

// The next n ranks of an accepted file whose jumps and differences are copied, with nothing put out.
pub fn count_ranks(file: &[u8], v: View, s: Setting, c: Cursor, e: Encoder, n: u32) -> Walk
    requires { (setting_allowed s ≡ true) × copies_jumps v s × ViewOf file.now v × Reached (next_of file.now v) v.words c n
        × Along e (walked_as (next_of file.now v) c n) }
    ensures { result ≡ carried (next_of file.now v) (coder s) c e n }
{
    jump_copy::take_ranks(file, v, c, e, n)
}
