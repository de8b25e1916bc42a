// The header of a file, put out.
ghost use Rattle.std.specs.Prelude.{◌≡◌, [], ◌∷◌, ◌+◌, ◌*◌, ◌≤◌, length};
ghost use Rattle.format.specs.Bytes.{bytes_of};
ghost use Rattle.format.specs.File.{header_length, header};
ghost use Rattle.stores.specs.Put.{put};
ghost use Rattle.layout.specs.Laid.{Fitting, counts_in};

use format::{Dimensions, HEADER, Setting};
use parts::Sizes;
use stores::{put_u8, put_u32};

// Kind, dimension count, width and step, a byte each.
fn put_setting(dst: &mut [u8], s: Setting, count: u32)
    requires { 4 ≤ length dst.old }
    ensures { dst.new ≡ put dst.old 0 (bytes_of 1 (s.kind ∷ count ∷ s.width ∷ s.step ∷ [])) }
{
    put_u8(dst, 0, s.kind);
    put_u8(dst, 1, count);
    put_u8(dst, 2, s.width);
    put_u8(dst, 3, s.step);
}

// Numbers in a row, 4 bytes each.
fn put_numbers(dst: &mut [u8], at: usize, numbers: &[u32])
    requires { at + 4 * length numbers.now ≤ length dst.old }
    ensures { dst.new ≡ put dst.old at (bytes_of 4 numbers.now) }
{
    for (i, x) in numbers.iter().enumerate() {
        put_u32(dst, at + 4 * i, *x);
    }
}

// The header at the beginning of dst.
pub fn put_header(dst: &mut [u8], s: Setting, d: Dimensions, empty: u32, z: Sizes)
    requires { (header_length ≤ length dst.old) × Fitting z }
    ensures { dst.new ≡ put dst.old 0 (header s d empty (counts_in z)) }
{
    let extents = d.extents;
    let start = HEADER as u32;
    let second = start + z.first;
    let words = second + z.second;
    let end = words + 4 * z.words;
    let numbers = [
        empty, z.words, z.firsts, z.seconds, start, second, words, end,
    ];
    put_setting(dst, s, d.count);
    put_numbers(dst, 4, &extents);
    put_numbers(dst, 20, &numbers);
}
