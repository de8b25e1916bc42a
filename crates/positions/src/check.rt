// The check of the first part: positions of 4 bytes that rise below cells.
ghost use Rattle.std.specs.Prelude.{◌≡◌, ◌+◌, ◌*◌, ◌≤◌, length, drop};
ghost use Rattle.format.specs.Bytes.{numbers_of};
ghost use Rattle.format.specs.Positions.{positions_kind};
ghost use Rattle.parts.specs.Holds.{Counted, rises, parts_right};

use format::View;
use wire::get_u32;

// The n positions of 4 bytes from an offset on rise below cells: each is above the one before, and the last is below cells.
fn positions_rise(file: &[u8], at: usize, n: u32, cells: u32) -> bool
    requires { at + 4 * n ≤ length file.now }
    ensures { result ≡ rises 0 cells (numbers_of 4 n (drop at file.now)) }
{
    if n == 0 {
        return true;
    }
    let mut before = get_u32(file, at);
    let mut right = true;
    for i in 1..n {
        let p = get_u32(file, at + 4 * i as usize);
        right = right & (before < p);
        before = p;
    }
    right & (before < cells)
}

// The parts are those of rising positions below cells, as many as the words.
pub fn parts_right(file: &[u8], v: View) -> bool
    requires { Counted (positions_kind v.width v.step) file.now v }
    ensures { result ≡ parts_right (positions_kind v.width v.step) file.now v }
{
    positions_rise(file, v.start as usize, v.words, v.cells)
}
