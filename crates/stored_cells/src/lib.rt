// The cells of a picture: the positions of the stored ones, and their words.
#![tactic(auto)]

pub mod tally;

ghost use Rattle.std.specs.Prelude.{◌≡◌, ◌++◌, ◌+◌, ◌*◌, ◌-◌, ◌≤◌, ◌^◌, length, take, drop, eqb};
ghost use Rattle.format.specs.Tools.{every};
ghost use Rattle.format.specs.Bytes.{bytes_of};
ghost use Rattle.format.specs.Stored.{stored_from, kept};
ghost use Rattle.stores.specs.Put.{put};

use stores::put_u32;

// The cells that are tested together.
const GROUP: usize = 16;

// Each of the cells of a group is empty.
fn all_empty(words: &[u32], from: usize, empty: u32) -> bool
    requires { from + 16 ≤ length words.now }
    ensures { result ≡ every (λ x. eqb x empty) (take 16 (drop from words.now)) }
{
    let mut same = true;
    for &word in &words[from..from + GROUP] {
        same = same & (word == empty);
    }
    same
}

// The positions of the stored cells from one index to another, listed after the first n elements of `out`; the number listed then.
fn list_cells(
    words: &[u32],
    from: usize,
    to: usize,
    at: u32,
    empty: u32,
    out: &mut [u32],
    n: usize,
) -> usize
    requires { (n ≤ from) × (from ≤ to) × (to ≤ length words.now) × (at + length words.now ≤ 2 ^ 32 - 1) × (length words.now ≤ length out.old) }
    ensures { (result ≤ to)
        × (take result out.new ++ stored_from empty (at + to) (drop to words.now)
        ≡ take n out.old ++ stored_from empty (at + from) (drop from words.now)) }
{
    let mut listed = n;
    for i in from..to {
        out[listed] = at + i as u32;
        listed += usize::from(words[i] != empty);
    }
    listed
}

// The positions of the stored cells among these, of which the first stands at position `at`; their number. Elements of `out` past it
// are left as anything.
pub fn stored_cells(words: &[u32], at: u32, empty: u32, out: &mut [u32]) -> usize
    requires { (at + length words.now ≤ 2 ^ 32 - 1) × (length words.now ≤ length out.old) }
    ensures { (result ≡ length (stored_from empty at words.now)) × (take result out.new ≡ stored_from empty at words.now) }
{
    let groups = words.len() / GROUP;
    let mut listed: usize = 0;
    for g in 0..groups {
        let i = GROUP * g;
        if !all_empty(words, i, empty) {
            listed = list_cells(words, i, i + GROUP, at, empty, out, listed);
        }
    }
    list_cells(words, GROUP * groups, words.len(), at, empty, out, listed)
}

// The words of the stored cells, 4 bytes each, at `place`.
pub fn put_kept(dst: &mut [u8], place: usize, words: &[u32], at: u32, empty: u32, ps: &[u32])
    requires { (ps.now ≡ stored_from empty at words.now) × (at + length words.now ≤ 2 ^ 32 - 1) × (place + 4 * length ps.now ≤ length dst.old) }
    ensures { dst.new ≡ put dst.old place (bytes_of 4 (kept empty words.now)) }
{
    for (rank, &p) in ps.iter().enumerate() {
        let cell = (p - at) as usize;
        put_u32(dst, place + 4 * rank, words[cell]);
    }
}
