// The differences and jumps of a batch of positions, put out.
ghost use Rattle.std.specs.Prelude.{◌≡◌, ◌+◌, ◌*◌, ◌≤◌, length};
ghost use Rattle.format.specs.Bytes.{bytes_of};
ghost use Rattle.format.specs.Jumps.{difference};
ghost use Rattle.laws.proofs.Stored.{Rising};
ghost use Rattle.stores.specs.Put.{put};
ghost use Rattle.difference_rows.specs.Later.{later_differences, later_jumps};

use differences::groups::zero;
use entries::Entry;
use parts::encode::limit;
use stores::put_u32;

// The difference stored for y after x, or 0 where it does not fit.
pub fn stored_difference(width: u32, x: u32, y: u32) -> u32
    requires { (x ≤ y) × (1 ≤ width) × (width ≤ 2) }
    ensures { result ≡ difference width x y }
{
    let d = y - x;
    if d <= limit(width) { d } else { 0 }
}

// The differences of all positions but the first, as entries; that of the first stands at an offset.
fn put_entries<E: Entry>(dst: &mut [u8], at: usize, ps: &[u32])
    requires { Rising 0 16777216 ps.now × (at + E.WIDTH * length ps.now ≤ length dst.old) }
    ensures { dst.new ≡ put dst.old (at + E.WIDTH * 1) (bytes_of E.WIDTH (later_differences E.WIDTH ps.now)) }
{
    for i in 1..ps.len() {
        let d = stored_difference(E::WIDTH as u32, ps[i - 1], ps[i]);
        E::put(dst, at + E::WIDTH * i, d);
    }
}

// The same of a width.
pub fn put_differences(dst: &mut [u8], width: u32, at: usize, ps: &[u32])
    requires { Rising 0 16777216 ps.now × (at + width * length ps.now ≤ length dst.old) × (1 ≤ width) × (width ≤ 2) }
    ensures { dst.new ≡ put dst.old (at + width * 1) (bytes_of width (later_differences width ps.now)) }
{
    if width == 1 {
        put_entries::<u8>(dst, at, ps);
    } else {
        put_entries::<u16>(dst, at, ps);
    }
}

// The jumps among all positions but the first, `count` of them, from an offset on. Each position is put, and the next over it where it is no jump.
#[tactic(auto, using(crate::proofs::PutTurns::jump_left))]
pub fn put_jumps(dst: &mut [u8], width: u32, at: usize, ps: &[u32], count: usize)
    requires { Rising 0 16777216 ps.now × (count ≡ length (later_jumps width ps.now)) × (at + 4 * count ≤ length dst.old) × (1 ≤ width) × (width ≤ 2) }
    ensures { dst.new ≡ put dst.old at (bytes_of 4 (later_jumps width ps.now)) }
{
    let end = at + 4 * count;
    let mut place = at;
    let mut i: usize = 1;
    // By hand: the loop ends with the last jump put, and the positions behind it are not read.
    while place < end {
        let p = ps[i];
        let d = stored_difference(width, ps[i - 1], p);
        put_u32(dst, place, p);
        place += 4 * (zero(d) as usize);
        i += 1;
    }
}
