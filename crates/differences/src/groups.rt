// The stored differences, one for each rank: one of them, and groups of 128.
ghost use Rattle.std.specs.Prelude.{◌≡◌, ◌+◌, ◌*◌, ◌≤◌, ◌<◌, length};
ghost use Rattle.format.specs.Bytes.{field};
ghost use Rattle.parts.specs.Encoder.{if_zero};
ghost use Rattle.differences.specs.Walk.{zeros, total, behind, Room};

use entries::Entry;
use wire::{get_u8, get_u16};

// The difference of rank i, of width 1 or 2.
pub fn difference(file: &[u8], second: usize, i: usize, width: u32) -> u32
    requires { (1 ≤ width) × (width ≤ 2) × (second + width * i + width ≤ length file.now) }
    ensures { (result ≡ field width (second + width * i) file.now) × (result < 65536) }
{
    if width == 1 {
        return get_u8(file, second + i);
    }
    get_u16(file, second + 2 * i)
}

// 1 for 0, and 0 for any other number.
pub fn zero(d: u32) -> u8
    ensures { (result ≡ if_zero d 1 0) × (result ≤ 1) }
{
    u8::from(d == 0)
}

// How many of the n differences after rank r are 0, a group or fewer. They are counted in an entry's own number, so that as many are compared at once; inlined,
// so that the count of a whole group is a constant.
#[inline(always)]
fn count_zeros<E: Entry>(file: &[u8], second: usize, r: usize, n: usize) -> usize
    requires { Room E.WIDTH second file.now (r + n) × (n ≤ 128) }
    ensures { result ≡ zeros E.WIDTH second file.now r n }
{
    let mut count = E::none();
    for k in 0..n {
        let d = E::get(file, second + E::WIDTH * (r + k + 1));
        count = count.one_more(d == 0);
    }
    count.count()
}

// How many of the 128 differences after rank r are 0: the jumps among them.
pub fn zeros(file: &[u8], second: usize, width: u32, r: usize) -> usize
    requires { Room width second file.now (r + 128) }
    ensures { (result ≡ zeros width second file.now r 128) × (result ≤ 128) }
{
    if width == 1 {
        return count_zeros::<u8>(file, second, r, 128);
    }
    count_zeros::<u16>(file, second, r, 128)
}

// How many of the n differences after rank r are 0, for fewer than a group.
pub fn few_zeros(file: &[u8], second: usize, width: u32, r: usize, n: usize) -> usize
    requires { Room width second file.now (r + n) × (n < 128) }
    ensures { (result ≡ zeros width second file.now r n) × (result ≤ n) }
{
    if width == 1 {
        return count_zeros::<u8>(file, second, r, n);
    }
    count_zeros::<u16>(file, second, r, n)
}

// The sum of the 128 differences after rank r.
pub fn sum(file: &[u8], second: usize, width: u32, r: usize) -> u32
    requires { Room width second file.now (r + 128) }
    ensures { (result ≡ total width second file.now r 128) × (result ≤ 65536 * 128) }
{
    let mut x: u32 = 0;
    for k in 0..128 {
        x += difference(file, second, r + k + 1, width);
    }
    x
}

// The sum of those of the n differences after rank r that are behind the last 0, from the last rank backwards; of all where none is 0.
#[tactic(auto, using(crate::proofs::Sums::behind_stop))]
pub fn sum_behind(file: &[u8], second: usize, width: u32, r: usize, n: usize) -> u32
    requires { Room width second file.now (r + n) × (n ≤ 128) }
    ensures { (result ≡ behind width second file.now r n) × (result ≤ 65536 * n) }
{
    let mut x: u32 = 0;
    for k in (0..n).rev() {
        let d = difference(file, second, r + k + 1, width);
        if d == 0 {
            return x;
        }
        x += d;
    }
    x
}

// The ranks to take next where so many are left: a group, or what is left.
pub fn next_group(left: usize) -> usize
    ensures { (result ≤ left) × (1 ≤ left → 1 ≤ result) × (result ≤ 128) }
{
    left.min(128)
}
