// The falls along a row of entries: those that are not above the one before.
ghost use Rattle.std.specs.Prelude.{◌≡◌, ◌+◌, ◌*◌, ◌≤◌, length, drop};
ghost use Rattle.format.specs.Bytes.{field, numbers_of};
ghost use Rattle.wire.specs.Wire.{entry_size};
ghost use Rattle.offsets.specs.Falls.{falls_after, falls};

use entries::Entry;

// How many of the n entries behind the one at an offset are not above the one before. They are counted in a number of their own width, at most
// 128, so that as many are compared at once.
fn block<E: Entry>(file: &[u8], at: usize, n: usize) -> usize
    requires { (n ≤ 128) × (at + E.WIDTH + E.WIDTH * n ≤ length file.now) }
    ensures { (result ≡ falls_after (field E.WIDTH at file.now) (numbers_of E.WIDTH n (drop (at + E.WIDTH) file.now))) × (result ≤ n) }
{
    let mut count = E::none();
    for i in 0..n {
        let place = at + E::WIDTH * i;
        count = count.one_more(E::get(file, place + E::WIDTH) <= E::get(file, place));
    }
    count.count()
}

// How many of the n >= 1 entries from an offset on are not above the one before, block by block.
fn falls_of<E: Entry>(file: &[u8], at: usize, n: u32) -> u32
    requires { (1 ≤ n) × (at + E.WIDTH * n ≤ length file.now) }
    ensures { result ≡ falls (numbers_of E.WIDTH n (drop at file.now)) }
{
    let more = n as usize - 1;
    let rest = more % 128;
    let mut count = 0;
    for i in 0..more / 128 {
        count += block::<E>(file, at + E::WIDTH * (128 * i), 128);
    }
    (count + block::<E>(file, at + E::WIDTH * (more - rest), rest)) as u32
}

// The same by the width. Entries of any other width than 1 and 2 are 0.
pub fn count_falls(file: &[u8], at: usize, width: u32, n: u32) -> u32
    requires { (1 ≤ n) × (at + entry_size width * n ≤ length file.now) }
    ensures { result ≡ falls (numbers_of (entry_size width) n (drop at file.now)) }
{
    match width {
        1 => falls_of::<u8>(file, at, n),
        2 => falls_of::<u16>(file, at, n),
        _ => n - 1,
    }
}
