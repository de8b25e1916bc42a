// Whether two accepted files are of one picture, by their headers, stored words and stored positions: no picture is expanded.
ghost use Rattle.std.specs.Prelude.{◌≡◌, ◌+◌, ◌*◌, ◌≤◌, length, drop};
ghost use Rattle.format.specs.Tools.{same};
ghost use Rattle.format.specs.Bytes.{numbers_of};
ghost use Rattle.format.specs.File.{WholeHeader};
ghost use Rattle.format.specs.Accepted.{positions_of, kept_of};
ghost use Rattle.format.specs.Shorter.{same_picture};
ghost use Rattle.parts.specs.Holds.{ViewOf};
ghost use Rattle.lent_parts.specs.Pair.{same_header, Views};

use format::View;
use kinds::steps::{positions, start};
use parts::walk::batch_of;
use wire::get_u8;

// The n numbers of 4 bytes from an offset on in each are the same: their bytes are.
fn same_numbers<'a>(first: &'a [u8], at: usize, second: &'a [u8], to: usize, n: u32) -> bool
    requires { (at + 4 * n ≤ length first.now) × (to + 4 * n ≤ length second.now) }
    ensures { result ≡ same (numbers_of 4 n (drop at first.now)) (numbers_of 4 n (drop to second.now)) }
{
    let size = 4 * n as usize;
    first[at..at + size] == second[to..to + size]
}

// The dimension counts are the same, and the extents, E and N, which stand one after the other.
fn same_header<'a>(first: &'a [u8], second: &'a [u8]) -> bool
    requires { WholeHeader first.now × WholeHeader second.now }
    ensures { result ≡ same_header first.now second.now }
{
    if get_u8(first, 1) != get_u8(second, 1) {
        return false;
    }
    same_numbers(first, 4, second, 4, 6)
}

// The stored words are the same.
fn same_words<'a>(first: &'a [u8], v: View, second: &'a [u8], w: View) -> bool
    requires { Views first.now v second.now w }
    ensures { result ≡ same (kept_of first.now) (kept_of second.now) }
{
    same_numbers(first, v.place as usize, second, w.place as usize, v.words)
}

// The stored positions are the same: a cursor walks along each file, batch by batch.
fn same_positions<'a>(first: &'a [u8], v: View, second: &'a [u8], w: View) -> bool
    requires { Views first.now v second.now w }
    ensures { result ≡ same (positions_of first.now) (positions_of second.now) }
{
    let mut c = start(first, v);
    let mut d = start(second, w);
    let mut here: [u32; 512] = [0; 512];
    let mut there: [u32; 512] = [0; 512];
    let mut rank: u32 = 0;
    while rank < v.words {
        let n = batch_of(v.words - rank);
        c = positions(first, v, c, &mut here[..n]);
        d = positions(second, w, d, &mut there[..n]);
        if here[..n] != there[..n] {
            return false;
        }
        rank += n as u32;
    }
    true
}

// Two accepted files are of one picture.
pub fn same_picture<'a>(first: &'a [u8], v: View, second: &'a [u8], w: View) -> bool
    requires { ViewOf first.now v × ViewOf second.now w }
    ensures { result ≡ same_picture first.now second.now }
{
    if !same_header(first, second) {
        return false;
    }
    if !same_words(first, v, second, w) {
        return false;
    }
    same_positions(first, v, second, w)
}
