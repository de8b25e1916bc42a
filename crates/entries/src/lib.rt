// The entries of a row, numbers of one or two bytes: got, put and counted.
#![tactic(auto)]

mod one_byte;
mod two_bytes;

ghost use Rattle.std.specs.Prelude.{◌≡◌, ℕ, ◌+◌, ◌<◌, ◌≤◌, length};
ghost use Rattle.format.specs.Bytes.{bytes, field};
ghost use Rattle.format.specs.Tools.{pick};
ghost use Rattle.stores.specs.Put.{put};

// The unsigned number of an entry's width. Up to 128 entries are counted in it, so that as many are compared at once.
pub trait Entry: Copy {
    ghost WIDTH: { ℕ };

    // The bytes of an entry.
    const WIDTH: usize;

    ghost counted: { Self → ℕ };

    // The entry at an index.
    fn get(s: &[u8], at: usize) -> u32
        requires { at + WIDTH ≤ length s.now }
        ensures { (result ≡ field WIDTH at s.now) × (result < 65536) };

    // The lowest bytes of a number, as many as an entry has.
    fn put(dst: &mut [u8], at: usize, x: u32)
        requires { at + WIDTH ≤ length dst.old }
        ensures { dst.new ≡ put dst.old at (bytes WIDTH x) };

    // The count of no entries.
    fn none() -> Self
        ensures { counted result ≡ 0 };

    // One more where a test holds.
    fn one_more(self, holds: bool) -> Self
        requires { counted self < 128 }
        ensures { counted result ≡ counted self + pick holds 1 0 };

    // The count as an index.
    fn count(self) -> usize
        ensures { result ≡ counted self };

    ghost one_or_two: { (1 ≤ WIDTH) × (WIDTH ≤ 2) };
}
