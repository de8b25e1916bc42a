// A picture's lent words, chunk by chunk: measured, and put out.
#![tactic(auto)]

ghost use Rattle.std.specs.Prelude.{◌≡◌, true, ◌⊎◌, ◌+◌, ◌*◌, ◌≤◌, Some, length};
ghost use Rattle.format.specs.Kinds.{setting_allowed};
ghost use Rattle.format.specs.Bytes.{bytes_of};
ghost use Rattle.format.specs.Stored.{stored_from, stored, kept};
ghost use Rattle.stores.specs.Put.{put};
ghost use Rattle.parts.specs.Encoder.{begun};
ghost use Rattle.parts.specs.Batch.{Along};
ghost use Rattle.kinds.specs.Steps.{stores_runs};
ghost use Rattle.kinds.specs.Coding.{taken_all, firsts, seconds, Apart, sized_by_ranks};
ghost use Rattle.layout.specs.Laid.{Measures};
ghost use Rattle.picture.specs.Chunk.{put_chunk, ChunkRoom};

use format::Setting;
use kinds::coding::{finish, put_all, sized_by_ranks, take_all};
use kinds::steps::stores_runs;
use layout::{by_counts, measured};
use parts::encode::begin;
use parts::{Encoder, Sizes};
use stored_cells::tally::count_cells;
use stored_cells::{put_kept, stored_cells};

// The cells of a chunk, at most.
const CHUNK: usize = 1024;

// The encoder after the stored cells of a chunk, of which the first stands at position `at`.
fn measure_chunk(
    words: &[u32],
    at: u32,
    empty: u32,
    s: Setting,
    e: Encoder,
    batch: &mut [u32],
) -> Encoder
    requires { (setting_allowed s ≡ true) × (length words.now ≤ length batch.old) × (at + length words.now ≤ 16777216)
        × Along e (stored_from empty at words.now) }
    ensures { result ≡ taken_all s e (stored_from empty at words.now) }
{
    let n = stored_cells(words, at, empty, batch);
    take_all(s, e, &batch[..n])
}

// What the file of the words measures, along its stored positions.
fn measure_along(words: &[u32], empty: u32, s: Setting) -> Option<Sizes>
    requires { (setting_allowed s ≡ true) × (length words.now ≤ 16777216) }
    ensures { Measures s (length words.now) (stored empty words.now) result }
{
    let mut batch = [0u32; CHUNK];
    let mut e = begin(0, 0);
    for (i, chunk) in words.chunks(CHUNK).enumerate() {
        e = measure_chunk(chunk, (CHUNK * i) as u32, empty, s, e, &mut batch);
    }
    measured(s, e)
}

// The sizes of the file of the words, in a kind where they follow from the stored cells and their runs.
fn measure_counted(words: &[u32], empty: u32, s: Setting) -> Sizes
    requires { (setting_allowed s ≡ true) × (length words.now ≤ 16777216) × (sized_by_ranks s.kind ⊎ stores_runs s.kind) }
    ensures { Measures s (length words.now) (stored empty words.now) (Some result) }
{
    let n = count_cells(words, empty);
    by_counts(s, n.stored, n.runs)
}

// What the file of the words measures, with nothing put out.
pub fn measure(words: &[u32], empty: u32, s: Setting) -> Option<Sizes>
    requires { (setting_allowed s ≡ true) × (length words.now ≤ 16777216) }
    ensures { Measures s (length words.now) (stored empty words.now) result }
{
    if sized_by_ranks(s.kind) {
        return Some(measure_counted(words, empty, s));
    }
    if stores_runs(s.kind) {
        return Some(measure_counted(words, empty, s));
    }
    measure_along(words, empty, s)
}

// The stored cells of a chunk put out: their positions into the parts, and their words after those put out before, the first of which
// stands at `place`. The encoder after them.
fn put_chunk(
    dst: &mut [u8],
    words: &[u32],
    at: u32,
    empty: u32,
    s: Setting,
    e: Encoder,
    place: usize,
    batch: &mut [u32],
) -> Encoder
    requires { (setting_allowed s ≡ true) × (length words.now ≤ length batch.old) × (at + length words.now ≤ 16777216)
        × ChunkRoom s e (stored_from empty at words.now) (place + 4 * e.rank) (length dst.old) }
    ensures { (result ≡ taken_all s e (stored_from empty at words.now))
        × (dst.new ≡ put_chunk s dst.old e (stored_from empty at words.now) (place + 4 * e.rank) (kept empty words.now)) }
{
    let n = stored_cells(words, at, empty, batch);
    let next = put_all(dst, s, e, &batch[..n]);
    let to = place + 4 * (e.rank as usize);
    put_kept(dst, to, words, at, empty, &batch[..n]);
    next
}

// The parts of the stored positions, the first at `start` and the second at `second`, and the stored words at `place`. A first part
// that is made of the second is left out.
pub fn put_out(
    dst: &mut [u8],
    words: &[u32],
    empty: u32,
    s: Setting,
    start: usize,
    second: usize,
    place: usize,
)
    requires { (setting_allowed s ≡ true) × (length words.now ≤ 16777216) × (start ≤ 4294967296) × (second ≤ 4294967296)
        × Apart s (begun start second) (stored empty words.now) place × (place + 4 * length (kept empty words.now) ≤ length dst.old) }
    ensures { dst.new ≡ put (put (put dst.old start (firsts s (begun start second) (stored empty words.now))) second
        (seconds s (begun start second) (stored empty words.now))) place (bytes_of 4 (kept empty words.now)) }
{
    let mut batch = [0u32; CHUNK];
    let mut e = begin(start, second);
    for (i, part) in words.chunks(CHUNK).enumerate() {
        e = put_chunk(
            dst,
            part,
            (CHUNK * i) as u32,
            empty,
            s,
            e,
            place,
            &mut batch,
        );
    }
    finish(dst, s, e);
}
