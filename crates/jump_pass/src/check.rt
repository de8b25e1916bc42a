// One pass over the parts.
ghost use Rattle.std.specs.Prelude.{◌≡◌, ◌+◌, ◌*◌, ◌^◌, ◌≤◌, ◌<◌, length};
ghost use Rattle.differences.specs.Walk.{Laid};
ghost use Rattle.jump_pass.specs.Pass.{Readable, GoesTo, both_near, passes_from, starts};

use differences::groups::{difference, next_group, sum, zeros};
use format::View;
use wire::get_u32;

// Rank 0 has the difference 0.
pub fn starts_right(file: &[u8], v: View) -> bool
    requires { Laid file.now v }
    ensures { result ≡ starts v file.now }
{
    v.words == 0 || difference(file, v.second as usize, 0, v.width) == 0
}

// How far a pass has come: the least position that a jump may have, which is past what a difference reaches from the position before, and the
// jumps that are left.
#[derive(Clone, Copy)]
pub struct Passed {
    pub least: usize,
    pub left: usize,
}

// Over rank k, or None where it is wrong; `reach` is the least distance that a difference does not reach.
fn pass_rank(
    file: &[u8],
    second: usize,
    width: u32,
    reach: usize,
    k: usize,
    s: Passed,
) -> Option<Passed>
    requires { Readable width second file.now k (k + 1) s × (reach ≡ 256 ^ width) }
    ensures { GoesTo width second file.now k (k + 1) s result }
{
    let d = difference(file, second, k, width);
    if d != 0 {
        return Some(Passed {
            least: s.least + d as usize,
            left: s.left,
        });
    }
    if s.left == 0 {
        return None;
    }
    let jump = get_u32(file, second - 4 * s.left) as usize;
    if jump < s.least {
        return None;
    }
    Some(Passed {
        least: jump + reach,
        left: s.left - 1,
    })
}

// The sum of the differences of rank k and the next, or 0 where one of them is a jump.
fn both_near(file: &[u8], second: usize, width: u32, k: usize) -> u32
    requires { (1 ≤ width) × (width ≤ 2) × (k < 2 ^ 32) × (second + width * (k + 1) + width ≤ length file.now) }
    ensures { (result ≡ both_near width second file.now k) × (result < 131072) }
{
    let d = difference(file, second, k, width);
    let e = difference(file, second, k + 1, width);
    if d == 0 || e == 0 {
        return 0;
    }
    d + e
}

// Over the ranks from i on up to an end: two at once where neither is a jump, else one.
fn pass_ranks(
    file: &[u8],
    second: usize,
    width: u32,
    reach: usize,
    i: usize,
    end: usize,
    s: Passed,
) -> Option<Passed>
    requires { Readable width second file.now i end s × (reach ≡ 256 ^ width) }
    ensures { GoesTo width second file.now i end s result }
{
    let mut t = s;
    let mut k = i;
    while k + 1 < end {
        let two = both_near(file, second, width, k);
        if two != 0 {
            t.least += two as usize;
            k += 2;
        } else {
            t = pass_rank(file, second, width, reach, k, t)?;
            k += 1;
        }
    }
    if k < end {
        return pass_rank(file, second, width, reach, k, t);
    }
    Some(t)
}

// The same. 128 ranks after rank 0 without a jump are taken by their sum.
fn pass_group(
    file: &[u8],
    second: usize,
    width: u32,
    reach: usize,
    i: usize,
    end: usize,
    s: Passed,
) -> Option<Passed>
    requires { Readable width second file.now i end s × (reach ≡ 256 ^ width) }
    ensures { GoesTo width second file.now i end s result }
{
    if 0 < i && end - i == 128 && zeros(file, second, width, i - 1) == 0 {
        return Some(Passed {
            least: s.least + sum(file, second, width, i - 1) as usize,
            left: s.left,
        });
    }
    pass_ranks(file, second, width, reach, i, end, s)
}

// The same, group by group.
pub fn pass_span(
    file: &[u8],
    second: usize,
    width: u32,
    reach: usize,
    i: usize,
    end: usize,
    s: Passed,
) -> Option<Passed>
    requires { Readable width second file.now i end s × (reach ≡ 256 ^ width) }
    ensures { GoesTo width second file.now i end s result }
{
    let mut t = s;
    let mut k = i;
    while k < end {
        let next = k + next_group(end - k);
        t = pass_group(file, second, width, reach, k, next, t)?;
        k = next;
    }
    Some(t)
}

// One pass over all ranks: positions rise, and only the last is held against cells.
pub fn pass(file: &[u8], v: View, width: u32, reach: usize) -> bool
    requires { Laid file.now v × (width ≡ v.width) × (reach ≡ 256 ^ width) }
    ensures { result ≡ passes_from v file.now 0 0 0 }
{
    let all = Passed {
        least: 0,
        left: v.firsts as usize,
    };
    let Some(s) = pass_span(
        file,
        v.second as usize,
        width,
        reach,
        0,
        v.words as usize,
        all,
    ) else {
        return false;
    };
    s.left == 0 && s.least < v.cells as usize + reach
}
