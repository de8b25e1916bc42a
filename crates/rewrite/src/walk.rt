// A stretch of ranks of a file into an encoder, by runs or in batches: to measure, and to write.
ghost use Rattle.std.specs.Prelude.{◌≡◌, true, ◌<◌, length};
ghost use Rattle.format.specs.Kinds.{setting_allowed};
ghost use Rattle.parts.specs.Holds.{kind_of, ViewOf};
ghost use Rattle.parts.specs.Batch.{Along, RoomAll, put_all_by};
ghost use Rattle.parts.specs.Carried.{Reached};
ghost use Rattle.kinds.specs.Steps.{next_of, walked, stepped_by};
ghost use Rattle.kinds.specs.Coding.{coder, taken_all};
ghost use Rattle.rewrite.specs.Walk.{along, added};

use super::run_parts::put_runs;
use edits::Edit;
use format::{Setting, View};
use kinds::coding::{put_all, take_all};
use kinds::copying::{copies, copies_jumps, copy_ranks, count_ranks};
use kinds::steps::{next, positions, stores_runs};
use parts::walk::{Walk, batch_of};
use parts::{Cursor, Encoder};

// The cursor n ranks on.
pub fn skip(file: &[u8], v: View, mut c: Cursor, n: u32) -> Cursor
    requires { (kind_of v).allowed ≡ true }
    ensures { result ≡ stepped_by file.now v c n }
{
    for _ in 0..n {
        c = next(file, v, c);
    }
    c
}

// The next n ranks in batches, with nothing put out.
fn measure_batches(file: &[u8], v: View, s: Setting, mut c: Cursor, mut e: Encoder, n: u32) -> Walk
    requires { ((kind_of v).allowed ≡ true) × (setting_allowed s ≡ true) × Along e (walked file.now v c n) }
    ensures { result ≡ along s file.now v c e n }
{
    let mut batch: [u32; 512] = [0; 512];
    let mut left = n;
    while 0 < left {
        let k = batch_of(left);
        c = positions(file, v, c, &mut batch[..k]);
        e = take_all(s, e, &batch[..k]);
        left -= k as u32;
    }
    Walk { c, e }
}

// The next n ranks, with nothing put out: where the sizes are measured, source and target do not both store runs.
pub fn measure_ranks(file: &[u8], v: View, s: Setting, c: Cursor, e: Encoder, n: u32) -> Walk
    requires { ((kind_of v).allowed ≡ true) × (setting_allowed s ≡ true) × Along e (walked file.now v c n) × ViewOf file.now v × Reached (next_of file.now v) v.words c n }
    ensures { result ≡ along s file.now v c e n }
{
    if copies_jumps(v, s) {
        return count_ranks(file, v, s, c, e, n);
    }
    measure_batches(file, v, s, c, e, n)
}

// The next n ranks in batches, put out.
fn put_batches(
    dst: &mut [u8],
    file: &[u8],
    v: View,
    s: Setting,
    mut c: Cursor,
    mut e: Encoder,
    n: u32,
) -> Walk
    requires { ((kind_of v).allowed ≡ true) × (setting_allowed s ≡ true) × Along e (walked file.now v c n) × RoomAll (coder s) e (walked file.now v c n) (length dst.old) }
    ensures { (result ≡ along s file.now v c e n) × (dst.new ≡ put_all_by (coder s) dst.old e (walked file.now v c n)) }
{
    let mut batch: [u32; 512] = [0; 512];
    let mut left = n;
    while 0 < left {
        let k = batch_of(left);
        c = positions(file, v, c, &mut batch[..k]);
        e = put_all(dst, s, e, &batch[..k]);
        left -= k as u32;
    }
    Walk { c, e }
}

// The next n ranks, put out.
pub fn put_ranks(
    dst: &mut [u8],
    file: &[u8],
    v: View,
    s: Setting,
    c: Cursor,
    e: Encoder,
    n: u32,
) -> Walk
    requires { ((kind_of v).allowed ≡ true) × (setting_allowed s ≡ true) × Along e (walked file.now v c n) × RoomAll (coder s) e (walked file.now v c n) (length dst.old) × ViewOf file.now v × Reached (next_of file.now v) v.words c n }
    ensures { (result ≡ along s file.now v c e n) × (dst.new ≡ put_all_by (coder s) dst.old e (walked file.now v c n)) }
{
    if copies(v, s) {
        return copy_ranks(dst, file, v, s, c, e, n);
    }
    if stores_runs(s.kind) {
        if stores_runs(v.kind) {
            return put_runs(dst, file, v, s, c, e, n);
        }
    }
    put_batches(dst, file, v, s, c, e, n)
}

// The position that the edit puts, if any, with nothing put out.
pub fn measure_added(s: Setting, e: Encoder, x: Edit) -> Encoder
    requires { (setting_allowed s ≡ true) × Along e (added x) }
    ensures { result ≡ taken_all s e (added x) }
{
    let Some(p) = x.added else {
        return e;
    };
    let one = [p.0];
    take_all(s, e, &one)
}

// The position that the edit puts, if any, put out.
pub fn put_added(dst: &mut [u8], s: Setting, e: Encoder, x: Edit) -> Encoder
    requires { (setting_allowed s ≡ true) × Along e (added x) × RoomAll (coder s) e (added x) (length dst.old) }
    ensures { (result ≡ taken_all s e (added x)) × (dst.new ≡ put_all_by (coder s) dst.old e (added x)) }
{
    let Some(p) = x.added else {
        return e;
    };
    let own = [p.0];
    put_all(dst, s, e, &own)
}
