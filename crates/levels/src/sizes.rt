// How many entries the levels have.
ghost use Rattle.std.specs.Prelude.{◌≡◌, ◌*◌, ◌≤◌, ◌<◌, ◌^◌, length, get_or};
ghost use Rattle.format.specs.Tools.{up_to};
ghost use Rattle.format.specs.PagedRuns.{upper_entries};
ghost use Rattle.levels.specs.Levels.{Sized};

// 2^32 over the step, rounded up. A number below 2^25 times this, over 2^32, is that number over the step.
fn share_of(step: u32) -> u64
    requires { (2 ≤ step) × (step ≤ 64) }
    ensures { result ≡ up_to 4294967296 step }
{
    u64::from(4294967295 / step) + 1
}

// How many pages of `step` entries a level has, from the step's share and without a division by the step.
fn pages(size: u32, step: u32, share: u64) -> u32
    requires { (2 ≤ step) × (step ≤ 64) × (size ≤ 16777216) × (share ≡ up_to 4294967296 step) }
    ensures { result ≡ up_to size step }
{
    ((u64::from(size + (step - 1)) * share) / 4294967296) as u32
}

// The entries above a level of v entries: while a level has more than b entries, one more for each of its pages.
pub fn upper_count(b: u32, v: u32) -> u32
    requires { (2 ≤ b) × (b ≤ 64) × (v ≤ 16777216) }
    ensures { (result ≡ upper_entries b v) × (result ≤ 2 * v) }
{
    let mut level = v;
    let mut entries: u32 = 0;
    let share = share_of(b);
    while b < level {
        level = pages(level, b, share);
        entries += level;
    }
    entries
}

// How many levels there are, and how many entries they have together.
#[derive(Clone, Copy)]
pub struct Levels {
    pub count: usize,
    pub entries: usize,
}

// Stores the size of each level, level 0 first.
pub fn level_sizes(step: u32, seconds: u32, sizes: &mut [u32; 24]) -> Levels
    requires { (2 ≤ step) × (step ≤ 64) × (seconds ≤ 16777216) × (length sizes.old ≡ 24) }
    ensures { Sized step seconds sizes.new result.count result.entries }
{
    let mut size = seconds;
    let mut count = 1;
    let mut entries = seconds as usize;
    sizes[0] = seconds;
    let share = share_of(step);
    while step < size {
        size = pages(size, step, share);
        sizes[count] = size;
        count += 1;
        entries += size as usize;
    }
    Levels { count, entries }
}

// How many entries a level has.
pub fn size_at(sizes: &[u32; 24], level: usize) -> usize
    requires { level < 24 }
    ensures { (result ≡ get_or sizes.now level 0) × (result < 2 ^ 32) }
{
    sizes[level] as usize
}
