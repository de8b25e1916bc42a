// Text put into a buffer: each function answers the place after it.
#![tactic(auto)]

ghost use Rattle.std.specs.Prelude.{◌≡◌, [], ◌∷◌, ◌++◌, ◌≤◌, length};
ghost use Rattle.format.specs.Lister.{decimal, line};
ghost use Rattle.text.specs.Text.{Room, TextPut};

// Bytes as they are.
pub fn put_bytes(dst: &mut [u8], at: usize, text: &[u8]) -> usize
    requires { Room text.now dst.old at }
    ensures { TextPut text.now dst.old at result dst.new }
{
    let end = at + text.len();
    dst[at..end].copy_from_slice(text);
    end
}

// How many digits a number has.
fn digit_count(n: u32) -> usize
    ensures { (result ≡ length (decimal n)) × (result ≤ 10) }
{
    let mut count: usize = 1;
    let mut rest = n;
    while 10 <= rest {
        rest /= 10;
        count += 1;
    }
    count
}

// A number in decimal, from its last digit to its first.
fn put_decimal(dst: &mut [u8], at: usize, n: u32) -> usize
    requires { Room (decimal n) dst.old at }
    ensures { TextPut (decimal n) dst.old at result dst.new }
{
    let end = at + digit_count(n);
    let mut rest = n;
    for i in (at + 1..end).rev() {
        dst[i] = b'0' + (rest % 10) as u8;
        rest /= 10;
    }
    dst[at] = b'0' + rest as u8;
    end
}

// A number and the byte after it.
pub fn put_number(dst: &mut [u8], at: usize, n: u32, after: u8) -> usize
    requires { Room (decimal n ++ (after ∷ [])) dst.old at }
    ensures { TextPut (decimal n ++ (after ∷ [])) dst.old at result dst.new }
{
    let end = put_decimal(dst, at, n);
    dst[end] = after;
    end + 1
}

// How long a line of three numbers is.
pub fn line_length(a: u32, b: u32, c: u32) -> usize
    ensures { result ≡ length (line a b c) }
{
    digit_count(a) + digit_count(b) + digit_count(c) + 3
}

// A line of three numbers.
pub fn put_line(dst: &mut [u8], at: usize, a: u32, b: u32, c: u32) -> usize
    requires { Room (line a b c) dst.old at }
    ensures { TextPut (line a b c) dst.old at result dst.new }
{
    let second = put_number(dst, at, a, b' ');
    let third = put_number(dst, second, b, b' ');
    put_number(dst, third, c, b'\n')
}
