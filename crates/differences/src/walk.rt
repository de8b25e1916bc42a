// A walk from rank to rank over any bytes, for a search. Ranks are taken in groups.
ghost use Rattle.std.specs.Prelude.{◌≡◌, ℕ, ◌+◌, ◌-◌, ◌*◌, ◌^◌, ◌≤◌};
ghost use Rattle.wire.specs.Wire.{whole};
ghost use Rattle.differences.specs.Walk.{stepped, walked, Within, Room, Stopped};

use super::groups::{difference, few_zeros, next_group, sum, sum_behind, zeros};
use wire::load_u32;

// How far a search has come: the position of a rank, and the number of jumps that are taken up to it.
#[derive(Clone, Copy)]
pub struct Reached {
    pub position: usize,
    pub taken: usize,
}

// Where a walk stops: a rank, and what is reached there.
#[derive(Clone, Copy)]
pub struct Place {
    pub rank: usize,
    pub reached: Reached,
}

// To rank r from the rank before. The next jump is read in either case, so that a jump costs no mispredicted branch.
pub fn advance(file: &[u8], start: u32, second: usize, width: u32, r: usize, s: Reached) -> Reached
    requires { Room width second file.now r × Within r s }
    ensures { (result ≡ stepped width start second file.now r s) × Within (r + 1) result }
{
    let position = s.position;
    let taken = s.taken;
    let d = difference(file, second, r, width) as usize;
    let jump = load_u32(file, start as usize + 4 * taken) as usize;
    if d != 0 {
        return Reached {
            position: position + d,
            taken,
        };
    }
    Reached {
        position: jump,
        taken: taken + 1,
    }
}

// Past z jumps, on from the last of them by the sum behind it.
fn past_jumps(file: &[u8], start: u32, s: Reached, z: usize, behind: u32) -> Reached
    requires { (1 ≤ z) × (z ≤ 128) × (s.taken ≤ 2 ^ 32) }
    ensures { (result ≡ record { position = whole 4 (start + 4 * (s.taken + z - 1)) file.now + behind; taken = s.taken + z }) × ((m : ℕ) → s.taken + z ≤ m → behind ≤ 65536 * m → Within m result) }
{
    let taken = s.taken + z;
    let jump = load_u32(file, start as usize + 4 * (taken - 1)) as usize;
    Reached {
        position: jump + behind as usize,
        taken,
    }
}

// Over the 128 ranks after rank r at once: by the sum of their differences, or from the last jump among them by the sum behind it.
fn take_group(file: &[u8], start: u32, second: usize, width: u32, r: usize, s: Reached) -> Reached
    requires { Room width second file.now (r + 128) × Within (2 ^ 32) s }
    ensures { (result ≡ walked width start second file.now r 128 s) × ((m : ℕ) → Within m s → Within (m + 128) result) }
{
    let z = zeros(file, second, width, r);
    if z == 0 {
        return Reached {
            position: s.position + sum(file, second, width, r) as usize,
            taken: s.taken,
        };
    }
    let behind = sum_behind(file, second, width, r, 128);
    past_jumps(file, start, s, z, behind)
}

// From rank r to the n-th rank after it, a group or fewer, at once.
fn walk_group(
    file: &[u8],
    start: u32,
    second: usize,
    width: u32,
    r: usize,
    n: usize,
    s: Reached,
) -> Reached
    requires { Room width second file.now (r + n) × Within (r + 1) s × (n ≤ 128) }
    ensures { (result ≡ walked width start second file.now r n s) × Within (r + n + 1) result }
{
    if n == 128 {
        return take_group(file, start, second, width, r, s);
    }
    let jumps = few_zeros(file, second, width, r, n);
    let behind = sum_behind(file, second, width, r, n);
    if jumps == 0 {
        return Reached {
            position: s.position + behind as usize,
            taken: s.taken,
        };
    }
    past_jumps(file, start, s, jumps, behind)
}

// From a place on to rank n, group by group, as long as the position stays below the target, where there is one.
pub fn walk(
    file: &[u8],
    start: u32,
    second: usize,
    width: u32,
    from: Place,
    n: usize,
    target: Option<usize>,
) -> Place
    requires { Room width second file.now n × (from.rank ≤ n) × Within (from.rank + 1) from.reached }
    ensures { Stopped width start second file.now from n target result }
{
    let mut t = from.reached;
    let mut r = from.rank;
    while r < n {
        let m = next_group(n - r);
        let next = walk_group(file, start, second, width, r, m, t);
        if target.is_some_and(|p| p <= next.position) {
            return Place {
                rank: r,
                reached: t,
            };
        }
        t = next;
        r += m;
    }
    Place {
        rank: r,
        reached: t,
    }
}
