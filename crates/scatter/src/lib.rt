// A file's words into a destination, batch by batch: the cells up to a batch's last position become empty, then each stored word comes to its position.
#![tactic(auto)]

ghost use Rattle.std.specs.Prelude.{◌≡◌, ◌++◌, ◌+◌, ◌≤◌, length, drop};
ghost use Rattle.format.specs.Tools.{Below};
ghost use Rattle.format.specs.Accepted.{kept_of, words_of};
ghost use Rattle.parts.specs.Holds.{ViewOf};
ghost use Rattle.scatter.specs.Scatter.{scattered};

use format::View;
use kinds::steps::{positions, start};
use parts::walk::batch_of;
use wire::get_u32;

// The stored words from a rank on, each at its position: `at` has the positions.
fn scatter_batch(file: &[u8], v: View, rank: u32, at: &[u32], dst: &mut [u32])
    requires { ViewOf file.now v × (rank + length at.now ≤ v.words) × Below (length dst.old) at.now }
    ensures { dst.new ≡ scattered dst.old at.now (drop rank (kept_of file.now)) }
{
    let words = v.place as usize + 4 * rank as usize;
    for (i, p) in at.iter().enumerate() {
        dst[*p as usize] = get_u32(file, words + 4 * i);
    }
}

// The words of an accepted file, all cells in row order. A batch's cells are filled just before its words come, while they are near.
pub fn expanded(file: &[u8], v: View, dst: &mut [u32])
    requires { ViewOf file.now v × (v.cells ≤ length dst.old) }
    ensures { dst.new ≡ words_of file.now ++ drop v.cells dst.old }
{
    let mut c = start(file, v);
    let mut batch: [u32; 512] = [0; 512];
    let mut rank: u32 = 0;
    let mut filled: usize = 0;
    while rank < v.words {
        let n = batch_of(v.words - rank);
        c = positions(file, v, c, &mut batch[..n]);
        let end = batch[n - 1] as usize + 1;
        dst[filled..end].fill(v.empty);
        scatter_batch(file, v, rank, &batch[..n], dst);
        filled = end;
        rank += n as u32;
    }
    dst[filled..v.cells as usize].fill(v.empty);
}
