// One position into level 0: the entry of the run that ends before it, and the encoder after it.
ghost use Rattle.std.specs.Prelude.{◌≡◌, true, ◌≤◌, length};
ghost use Rattle.parts.specs.Encoder.{run_ends, taken_by};
ghost use Rattle.parts.specs.Ready.{Next, Room, put_by};
ghost use Rattle.page_entries.specs.Coding.{pages_coder};

use parts::Encoder;
use parts::encode::{left_after, move_on, run_ends};
use stores::put_pair;

// The encoder after p, before which a run ends.
fn after_run(step: u32, e: Encoder, p: u32) -> Encoder
    requires { Next e p × (1 ≤ step) × (run_ends e p ≡ true) }
    ensures { result ≡ taken_by (pages_coder step) e p }
{
    let left = left_after(step, e.left);
    let mut cells = e.cells;
    let mut empty = e.empty;
    if left == 0 {
        cells = e.last + 1;
        empty = cells - e.rank;
    }
    Encoder {
        rank: e.rank + 1,
        last: p,
        left,
        base: e.base,
        cells,
        empty,
        first: e.first,
        second: e.second + 8,
        fits: e.fits,
    }
}

// The encoder after p.
pub fn pages_taken(step: u32, e: Encoder, p: u32) -> Encoder
    requires { Next e p × (1 ≤ step) }
    ensures { result ≡ taken_by (pages_coder step) e p }
{
    if run_ends(e, p) {
        return after_run(step, e, p);
    }
    move_on(e, p, e.first, e.second)
}

// The entry of the run, which ends before p; the encoder after p.
pub fn put_entry(dst: &mut [u8], step: u32, e: Encoder, p: u32) -> Encoder
    requires { Next e p × Room (pages_coder step) e p (length dst.old) × (1 ≤ step) × (run_ends e p ≡ true) }
    ensures { (result ≡ taken_by (pages_coder step) e p) × (dst.new ≡ put_by (pages_coder step) dst.old e p) }
{
    let end = e.last + 1;
    put_pair(dst, e.second, end - e.cells, end - e.rank - e.empty);
    after_run(step, e, p)
}

// The entry of the run, where one ends before p; the encoder after p.
pub fn pages_put(dst: &mut [u8], step: u32, e: Encoder, p: u32) -> Encoder
    requires { Next e p × Room (pages_coder step) e p (length dst.old) × (1 ≤ step) }
    ensures { (result ≡ taken_by (pages_coder step) e p) × (dst.new ≡ put_by (pages_coder step) dst.old e p) }
{
    if run_ends(e, p) {
        return put_entry(dst, step, e, p);
    }
    move_on(e, p, e.first, e.second)
}
