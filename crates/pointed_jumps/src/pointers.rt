// How many pointers there are, and where they stand: behind the differences.
ghost use Rattle.std.specs.Prelude.{◌≡◌, ◌+◌, ◌*◌, ◌≤◌};
ghost use Rattle.format.specs.Tools.{up_to};

// A pointer for jump 0, n, 2n and so on.
pub fn pointer_count(jumps: u32, step: u32) -> u32
    requires { 1 ≤ step }
    ensures { (result ≡ up_to jumps step) × (result ≤ jumps) }
{
    jumps.div_ceil(step)
}

// The place of the pointers, where there are so many words.
pub fn pointers_at(second: usize, width: u32, words: u32) -> usize
    requires { (second ≤ 4294967296 * 2) × (width ≤ 2) }
    ensures { result ≡ second + width * words }
{
    second + width as usize * words as usize
}
