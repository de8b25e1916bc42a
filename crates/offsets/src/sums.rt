// The sums of a base and the offsets of ranks.
ghost use Rattle.std.specs.Prelude.{◌≡◌, ◌+◌, ◌*◌, ◌≤◌, true, length, drop};
ghost use Rattle.format.specs.Bytes.{numbers_of};
ghost use Rattle.wire.specs.Wire.{entry_size};
ghost use Rattle.offsets.specs.Sums.{There, sums};

use entries::Entry;
use wire::entry_size;

// Whether the offsets of n ranks from a rank on are all there.
pub fn all_there(file: &[u8], width: u32, second: u32, rank: u32, n: usize) -> bool
    ensures { result ≡ true → There file.now width second rank n }
{
    if 65536 < n {
        return false;
    }
    let end = rank as usize + n;
    if 4294967295 < end {
        return false;
    }
    let size = entry_size(width);
    if size == 0 {
        return false;
    }
    second as usize + size * end <= file.len()
}

// The sums of a base and the numbers from an index on.
fn sums_of<E: Entry>(file: &[u8], at: usize, base: u32, out: &mut [u32])
    requires { at + E.WIDTH * length out.old ≤ length file.now }
    ensures { out.new ≡ sums base (numbers_of E.WIDTH (length out.old) (drop at file.now)) }
{
    for (i, x) in out.iter_mut().enumerate() {
        *x = base.wrapping_add(E::get(file, at + E::WIDTH * i));
    }
}

// The sums of a base and the offsets of the ranks from a rank on.
pub fn sums(file: &[u8], width: u32, second: u32, rank: u32, base: u32, out: &mut [u32])
    requires { There file.now width second rank (length out.old) }
    ensures { out.new ≡ sums base (numbers_of (entry_size width) (length out.old) (drop (second + entry_size width * rank) file.now)) }
{
    if width == 1 {
        sums_of::<u8>(file, second as usize + rank as usize, base, out);
    } else {
        sums_of::<u16>(file, second as usize + 2 * rank as usize, base, out);
    }
}
