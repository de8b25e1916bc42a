// The offsets of positions from a base, put out.
ghost use Rattle.std.specs.Prelude.{◌≡◌, ◌+◌, ◌*◌, ◌≤◌, length};
ghost use Rattle.format.specs.Bytes.{bytes_of};
ghost use Rattle.laws.proofs.Stored.{Rising};
ghost use Rattle.stores.specs.Put.{put};
ghost use Rattle.offsets.specs.Over.{offsets_over};

use entries::Entry;

// The offsets of positions from a base.
fn put_offsets_of<E: Entry>(dst: &mut [u8], at: usize, base: u32, ps: &[u32])
    requires { Rising base 16777216 ps.now × (at + E.WIDTH * length ps.now ≤ length dst.old) }
    ensures { dst.new ≡ put dst.old at (bytes_of E.WIDTH (offsets_over base ps.now)) }
{
    for (i, p) in ps.iter().enumerate() {
        E::put(dst, at + E::WIDTH * i, *p - base);
    }
}

// The same by the width.
pub fn put_offsets(dst: &mut [u8], at: usize, width: u32, base: u32, ps: &[u32])
    requires { Rising base 16777216 ps.now × (at + width * length ps.now ≤ length dst.old) × (1 ≤ width) × (width ≤ 2) }
    ensures { dst.new ≡ put dst.old at (bytes_of width (offsets_over base ps.now)) }
{
    if width == 1 {
        put_offsets_of::<u8>(dst, at, base, ps);
    } else {
        put_offsets_of::<u16>(dst, at, base, ps);
    }
}
