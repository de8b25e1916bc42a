// One position: the pair of the run that ends before it, and the encoder after it.
ghost use Rattle.std.specs.Prelude.{◌≡◌, length};
ghost use Rattle.parts.specs.Encoder.{taken_by};
ghost use Rattle.parts.specs.Ready.{Next, Room, put_by};
ghost use Rattle.run_pairs.specs.Coding.{runs_coder};

use parts::Encoder;
use parts::encode::{move_on, run_ends};
use stores::put_pair;

// The encoder after p, with nothing put out.
pub fn take_one(e: Encoder, p: u32) -> Encoder
    requires { Next e p }
    ensures { result ≡ taken_by runs_coder e p }
{
    if run_ends(e, p) {
        return move_on(e, p, e.first + 8, e.second);
    }
    move_on(e, p, e.first, e.second)
}

// The bytes that p adds; the encoder after it.
pub fn put_one(dst: &mut [u8], e: Encoder, p: u32) -> Encoder
    requires { Next e p × Room runs_coder e p (length dst.old) }
    ensures { (result ≡ taken_by runs_coder e p) × (dst.new ≡ put_by runs_coder dst.old e p) }
{
    if !run_ends(e, p) {
        return move_on(e, p, e.first, e.second);
    }
    put_pair(dst, e.first, e.last, e.last + 1 - e.rank);
    move_on(e, p, e.first + 8, e.second)
}
