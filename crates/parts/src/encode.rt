// What the encoders of the kinds share.
ghost use Rattle.std.specs.Prelude.{◌≡◌, ◌+◌, ◌-◌, ◌^◌, ◌<◌, ◌≤◌};
ghost use Rattle.parts.specs.Encoder.{begun, left_after, run_ends};
ghost use Rattle.parts.specs.Ready.{Next, moved};
ghost use Rattle.parts.specs.Batch.{grown};

use super::Encoder;

// Nothing taken; the parts begin at first and second.
pub fn begin(first: usize, second: usize) -> Encoder
    ensures { result ≡ begun first second }
{
    Encoder {
        rank: 0,
        last: 0,
        left: 0,
        base: 0,
        cells: 0,
        empty: 0,
        first,
        second,
        fits: true,
    }
}

// Only the places of the next entries change.
pub fn move_on(e: Encoder, p: u32, first: usize, second: usize) -> Encoder
    requires { Next e p }
    ensures { result ≡ moved e p first second }
{
    let rank = e.rank + 1;
    Encoder {
        rank,
        last: p,
        left: e.left,
        base: e.base,
        cells: e.cells,
        empty: e.empty,
        first,
        second,
        fits: e.fits,
    }
}

// Kinds 1 and 5: a run ends before p.
pub fn run_ends(e: Encoder, p: u32) -> bool
    requires { Next e p }
    ensures { result ≡ run_ends e p }
{
    if e.rank == 0 {
        return false;
    }
    p != e.last + 1
}

// Kinds 3 and 5: what is left of l after one more.
pub fn left_after(l: u32, left: u32) -> u32
    requires { 1 ≤ l }
    ensures { result ≡ left_after l left }
{
    if left == 0 { l - 1 } else { left - 1 }
}

// The largest number of one or two bytes.
pub fn limit(width: u32) -> u32
    requires { (1 ≤ width) × (width ≤ 2) }
    ensures { result ≡ 256 ^ width - 1 }
{
    if width == 1 { 255 } else { 65535 }
}

// The encoder m cells further in its run.
pub fn grow(mut e: Encoder, m: u32) -> Encoder
    requires { (e.rank + m < 4294967296) × (e.last + m < 4294967296) }
    ensures { result ≡ grown e m }
{
    e.rank += m;
    e.last += m;
    e
}
