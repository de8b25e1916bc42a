// Entries of two bytes.
ghost use Rattle.std.proofs.Common.{arith};

use super::Entry;
use stores::put_u16;
use wire::get_u16;

impl Entry for u16 {
    ghost WIDTH = { 2 };

    const WIDTH: usize = 2;

    ghost counted = { λ n. n };

    ghost one_or_two = { (omega arith, omega arith) };

    fn get(s: &[u8], at: usize) -> u32 {
        get_u16(s, at)
    }

    fn put(dst: &mut [u8], at: usize, x: u32) {
        put_u16(dst, at, x);
    }

    fn none() -> u16 {
        0
    }

    fn one_more(self, holds: bool) -> u16 {
        self + holds as u16
    }

    fn count(self) -> usize {
        self as usize
    }
}
