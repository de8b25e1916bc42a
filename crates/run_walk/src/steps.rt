// The steps from one run to the next, and the positions of a batch of ranks.
ghost use Rattle.std.specs.Prelude.{◌≡◌, true, length};
ghost use Rattle.parts.specs.Cursor.{Batch};
ghost use Rattle.run_walk.specs.Steps.{entered, next, There};

use format::View;
use parts::Cursor;
use parts::walk::fill_run;
use wire::{get_pair, load_pair};

// The first stored cell of the next run. The position of a stored cell is its rank and the empty cells before it.
pub fn enter(file: &[u8], v: View, mut c: Cursor) -> Cursor
    ensures { result ≡ entered file.now v c }
{
    let run = load_pair(file, v.start as usize + 8 * c.next as usize);
    c.rank = c.rank.wrapping_add(1);
    c.at = c.rank.wrapping_add(run.second);
    c.next = c.next.wrapping_add(1);
    c.last = run.first;
    c
}

// Whether the n pairs from the cursor's next on are all there.
pub fn all_there(file: &[u8], v: View, c: Cursor, n: usize) -> bool
    ensures { result ≡ true → There file.now v c n }
{
    if 65536 < n {
        return false;
    }
    v.start as usize + 8 * (c.next as usize + n) <= file.len()
}

// The positions from the cursor on, where a pair for each is there. The cursor stays in registers: no call takes it and gives it back.
pub fn along(file: &[u8], v: View, mut c: Cursor, out: &mut [u32]) -> Cursor
    requires { There file.now v c (length out.old) }
    ensures { Batch (next file.now v) c (length out.old) result out.new }
{
    let mut i: usize = 0;
    while i < out.len() {
        let m = fill_run(out, i, c);
        i += m;
        let more = (m - 1) as u32;
        let at = c.at + more;
        c.rank = c.rank.wrapping_add(more).wrapping_add(1);
        if at < c.last {
            c.at = at + 1;
        } else {
            let run = get_pair(file, v.start as usize + 8 * c.next as usize);
            c.at = c.rank.wrapping_add(run.second);
            c.next = c.next.wrapping_add(1);
            c.last = run.first;
        }
    }
    c
}
