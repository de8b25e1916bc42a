// Bytes copied from one buffer to another.
ghost use Rattle.std.specs.Prelude.{◌≡◌, ◌+◌, ◌≤◌, length, take, drop};
ghost use Rattle.stores.specs.Put.{put};

// n bytes of src from `from` on, at `at`. One by one: the library's `copy_from_slice` calls `memmove`, and a static library is to ask no more of a program than it
// did.
pub fn copy(dst: &mut [u8], at: usize, src: &[u8], from: usize, n: usize)
    requires { (from + n ≤ length src.now) × (at + n ≤ length dst.old) }
    ensures { dst.new ≡ put dst.old at (take n (drop from src.now)) }
{
    for i in 0..n {
        dst[at + i] = src[from + i];
    }
}
