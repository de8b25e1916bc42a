// Numbers stored in bytes, lowest byte first, where there is room for them, and bytes copied.
#![tactic(auto)]

pub mod copy;

ghost use Rattle.std.specs.Prelude.{◌≡◌, ◌+◌, ◌≤◌, length};
ghost use Rattle.format.specs.Bytes.{bytes};
ghost use Rattle.stores.specs.Put.{put, pair};

// By hand for each size, as wire reads them.

// The lowest byte of a number.
pub fn put_u8(dst: &mut [u8], at: usize, x: u32)
    requires { at + 1 ≤ length dst.old }
    ensures { dst.new ≡ put dst.old at (bytes 1 x) }
{
    dst[at] = (x % 256) as u8;
}

// The lowest two bytes of a number.
pub fn put_u16(dst: &mut [u8], at: usize, x: u32)
    requires { at + 2 ≤ length dst.old }
    ensures { dst.new ≡ put dst.old at (bytes 2 x) }
{
    dst[at] = (x % 256) as u8;
    dst[at + 1] = (x / 256 % 256) as u8;
}

// A number's four bytes.
pub fn put_u32(dst: &mut [u8], at: usize, x: u32)
    requires { at + 4 ≤ length dst.old }
    ensures { dst.new ≡ put dst.old at (bytes 4 x) }
{
    dst[at] = (x % 256) as u8;
    dst[at + 1] = (x / 256 % 256) as u8;
    dst[at + 2] = (x / 65536 % 256) as u8;
    dst[at + 3] = (x / 16777216 % 256) as u8;
}

// An entry of one or two bytes.
pub fn put_entry(dst: &mut [u8], at: usize, width: u32, x: u32)
    requires { (at + width ≤ length dst.old) × (1 ≤ width) × (width ≤ 2) }
    ensures { dst.new ≡ put dst.old at (bytes width x) }
{
    if width == 1 {
        put_u8(dst, at, x);
    } else {
        put_u16(dst, at, x);
    }
}

// Two numbers of four bytes.
pub fn put_pair(dst: &mut [u8], at: usize, a: u32, v: u32)
    requires { at + 8 ≤ length dst.old }
    ensures { dst.new ≡ put dst.old at (pair a v) }
{
    put_u32(dst, at, a);
    put_u32(dst, at + 4, v);
}
