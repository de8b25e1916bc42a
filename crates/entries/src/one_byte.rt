// Entries of one byte.
ghost use Rattle.std.proofs.Common.{arith};

use super::Entry;
use stores::put_u8;
use wire::get_u8;

impl Entry for u8 {
    ghost WIDTH = { 1 };

    const WIDTH: usize = 1;

    ghost counted = { λ n. n };

    ghost one_or_two = { (omega arith, omega arith) };

    fn get(s: &[u8], at: usize) -> u32 {
        get_u8(s, at)
    }

    fn put(dst: &mut [u8], at: usize, x: u32) {
        put_u8(dst, at, x);
    }

    fn none() -> u8 {
        0
    }

    fn one_more(self, holds: bool) -> u8 {
        self + holds as u8
    }

    fn count(self) -> usize {
        self as usize
    }
}
