// The stored words of a file, 4 bytes each by rank.
#![tactic(auto)]

ghost use Rattle.std.specs.Prelude.{◌≡◌, not, ◌+◌, ◌*◌, ◌≤◌, ◌<◌, length, drop, eqb};
ghost use Rattle.format.specs.Tools.{every};
ghost use Rattle.format.specs.Bytes.{numbers_of};

use wire::get_u32;

// None of the n words from an offset on is the empty word.
pub fn words_right(file: &[u8], at: usize, n: u32, empty: u32) -> bool
    requires { at + 4 * n ≤ length file.now }
    ensures { result ≡ every (λ x. not (eqb x empty)) (numbers_of 4 n (drop at file.now)) }
{
    let mut right = true;
    for i in 0..n as usize {
        right &= get_u32(file, at + 4 * i) != empty;
    }
    right
}
