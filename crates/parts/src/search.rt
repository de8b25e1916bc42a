// A search among rising numbers of 4 bytes, in eighths: which of them it goes on in is counted, and not branched on. Any bytes are safe.
ghost use Rattle.std.specs.Prelude.{◌≡◌, ◌+◌, ◌*◌, ◌^◌, ◌<◌, ◌≤◌, leb, length, nat_le};
ghost use Rattle.format.specs.Tools.{pick};
ghost use Rattle.wire.specs.Wire.{whole};
ghost use Rattle.parts.specs.Last.{LastAtMost, passing};

use wire::get_u32;

// 1 for a number that is at most x.
pub fn counted(y: u32, x: u32) -> usize
    ensures { (result ≡ pick (nat_le y x) 1 0) × (result ≤ 1) }
{
    usize::from(y <= x)
}

// How many of the numbers of 4 bytes at one stride from an offset, at two, and so on up to n strides, are at most x.
fn at_most(file: &[u8], at: usize, stride: usize, n: usize, x: u32) -> usize
    requires { at + stride * n + 4 ≤ length file.now }
    ensures { (result ≡ passing (λ i. leb (whole 4 (at + stride * i) file.now) x) n) × (result ≤ n) }
{
    let mut count: usize = 0;
    for i in 0..n {
        count += counted(get_u32(file, at + stride * (i + 1)), x);
    }
    count
}

// The index of the last of the n numbers of 4 bytes from `start` on that is at most x, where they rise; 0 where none is.
pub fn last_at_most(file: &[u8], start: usize, n: u32, x: u32) -> u32
    requires { start < 2 ^ 40 }
    ensures { LastAtMost (λ i. whole 4 (start + 4 * i) file.now) n x result }
{
    if n == 0 {
        return 0;
    }
    if file.len() < start + 4 * n as usize {
        return 0;
    }
    let mut low: usize = 0;
    let mut size = n as usize;
    while 8 <= size {
        let part = size / 8;
        low += part * at_most(file, start + 4 * low, 4 * part, 7, x);
        size -= 7 * part;
    }
    low += at_most(file, start + 4 * low, 4, size - 1, x);
    low as u32
}
