// Rising positions that are further from the one before than a number: kind 4 jumps to them, and in kinds 1 and 5 a run ends before them.
ghost use Rattle.std.specs.Prelude.{◌≡◌, ◌≤◌, length, take};
ghost use Rattle.laws.proofs.Stored.{Rising};
ghost use Rattle.rises.specs.Far.{far, ends_of};

// How many positions but the first are further than `most` from the one before.
pub fn count_far(ps: &[u32], most: u32) -> u32
    requires { Rising 0 16777216 ps.now }
    ensures { (result ≡ far most ps.now) × (result ≤ length ps.now) }
{
    let mut count: u32 = 0;
    for w in ps.windows(2) {
        count += u32::from(most < w[1] - w[0]);
    }
    count
}

// The indices of the positions that another run follows, in the first elements of `out`; their number. Elements of `out` past it are left as anything.
pub fn list_ends(ps: &[u32], out: &mut [u32]) -> usize
    requires { Rising 0 16777216 ps.now × (length ps.now ≤ length out.old) }
    ensures { (take result out.new ≡ ends_of ps.now) × (result ≤ length ps.now) × (length out.new ≡ length out.old) }
{
    let mut listed: usize = 0;
    for i in 1..ps.len() {
        out[listed] = (i - 1) as u32;
        listed += usize::from(1 < ps[i] - ps[i - 1]);
    }
    listed
}
