// Numbers in bytes, lowest byte first. `get` asks that the bytes are there; `load` gives 0 where they are not all there.
#![tactic(auto)]

ghost use Rattle.std.specs.Prelude.{◌≡◌, ◌+◌, ◌*◌, ◌≤◌, ◌<◌, ◌^◌, length};
ghost use Rattle.format.specs.Bytes.{field};
ghost use Rattle.wire.specs.Wire.{whole, entry_size, field_pair, pair_at};

// By hand for each size, as the library's `from_le_bytes` is: a sum says what is read more plainly than a loop over a const size.

// The number of one byte at an index.
pub fn get_u8(s: &[u8], at: usize) -> u32
    requires { at + 1 ≤ length s.now }
    ensures { (result ≡ field 1 at s.now) × (result < 256) }
{
    u32::from(s[at])
}

// The number of two bytes at an index.
pub fn get_u16(s: &[u8], at: usize) -> u32
    requires { at + 2 ≤ length s.now }
    ensures { (result ≡ field 2 at s.now) × (result < 65536) }
{
    u32::from(s[at]) + 256 * u32::from(s[at + 1])
}

// The number of four bytes at an index.
pub fn get_u32(s: &[u8], at: usize) -> u32
    requires { at + 4 ≤ length s.now }
    ensures { (result ≡ field 4 at s.now) × (result < 2 ^ 32) }
{
    u32::from(s[at])
        + 256 * u32::from(s[at + 1])
        + 65536 * u32::from(s[at + 2])
        + 16777216 * u32::from(s[at + 3])
}

// The same, or 0 where the bytes are not all there.
pub fn load_u8(s: &[u8], at: usize) -> u32
    ensures { (result ≡ whole 1 at s.now) × (result < 256) }
{
    if at < s.len() { get_u8(s, at) } else { 0 }
}

pub fn load_u16(s: &[u8], at: usize) -> u32
    ensures { (result ≡ whole 2 at s.now) × (result < 65536) }
{
    if s.len() < 2 {
        return 0;
    }
    if s.len() - 2 < at {
        return 0;
    }
    get_u16(s, at)
}

pub fn load_u32(s: &[u8], at: usize) -> u32
    ensures { (result ≡ whole 4 at s.now) × (result < 2 ^ 32) }
{
    if s.len() < 4 {
        return 0;
    }
    if s.len() - 4 < at {
        return 0;
    }
    get_u32(s, at)
}

// The bytes of an entry of the widths 1 and 2; none for any other.
pub fn entry_size(width: u32) -> usize
    ensures { (result ≡ entry_size width) × (result ≤ 2) }
{
    match width {
        1 => 1,
        2 => 2,
        _ => 0,
    }
}

// An entry of the widths 1 and 2; 0 for any other.
pub fn load_entry(s: &[u8], at: usize, width: u32) -> u32
    ensures { (result ≡ whole (entry_size width) at s.now) × (result < 65536) }
{
    match width {
        1 => load_u8(s, at),
        2 => load_u16(s, at),
        _ => 0,
    }
}

// An entry of the widths 1 and 2 that is there; 0 for any other width.
pub fn get_entry(s: &[u8], at: usize, width: u32) -> u32
    requires { at + entry_size width ≤ length s.now }
    ensures { (result ≡ field (entry_size width) at s.now) × (result < 65536) }
{
    match width {
        1 => get_u8(s, at),
        2 => get_u16(s, at),
        _ => 0,
    }
}

// Two numbers of four bytes, one after the other.
#[derive(Clone, Copy)]
pub struct Pair {
    pub first: u32,
    pub second: u32,
}

// The pair at an index.
pub fn get_pair(s: &[u8], at: usize) -> Pair
    requires { at + 8 ≤ length s.now }
    ensures { (result ≡ field_pair at s.now) × (result.first < 2 ^ 32) × (result.second < 2 ^ 32) }
{
    Pair {
        first: get_u32(s, at),
        second: get_u32(s, at + 4),
    }
}

// The pair at an index, by one test; zeros where its bytes are not all there.
pub fn load_pair(s: &[u8], at: usize) -> Pair
    ensures { result ≡ pair_at at s.now }
{
    if s.len() < 8 {
        return Pair {
            first: 0,
            second: 0,
        };
    }
    if s.len() - 8 < at {
        return Pair {
            first: 0,
            second: 0,
        };
    }
    get_pair(s, at)
}
