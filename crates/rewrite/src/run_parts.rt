// Ranks of a file put out run by run, where both the file's kind and the new one store runs and the kinds differ.
ghost use Rattle.std.specs.Prelude.{◌≡◌, true, ◌<◌, length};
ghost use Rattle.format.specs.Kinds.{setting_allowed};
ghost use Rattle.parts.specs.Batch.{Along, RoomAll, put_all_by};
ghost use Rattle.kinds.specs.Steps.{walked, stores_runs};
ghost use Rattle.kinds.specs.Coding.{coder};
ghost use Rattle.rewrite.specs.Walk.{along};

use format::{Setting, View};
use kinds::coding::put_run;
use kinds::steps::past_cells;
use parts::walk::{Walk, stretch};
use parts::{Cursor, Encoder};

// The next n ranks, put out.
pub fn put_runs(
    dst: &mut [u8],
    file: &[u8],
    v: View,
    s: Setting,
    mut c: Cursor,
    mut e: Encoder,
    n: u32,
) -> Walk
    requires { (setting_allowed s ≡ true) × stores_runs s.kind × stores_runs v.kind × Along e (walked file.now v c n) × RoomAll (coder s) e (walked file.now v c n) (length dst.old) }
    ensures { (result ≡ along s file.now v c e n) × (dst.new ≡ put_all_by (coder s) dst.old e (walked file.now v c n)) }
{
    let mut left = n;
    while 0 < left {
        let k = stretch(c, left);
        e = put_run(dst, s, e, c.at, k);
        c = past_cells(file, v, c, k - 1);
        left -= k;
    }
    Walk { c, e }
}
