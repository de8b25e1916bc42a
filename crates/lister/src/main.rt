// Lists the file on standard input. One byte more than may be listed is read, to see that there is more.
#![tactic(auto)]

use listing::input::read_full;
use std::io;
use std::io::Write;

fn main(rt: HostRuntime) -> io::Result<()> {
    let mut input = [0u8; 65537];
    let mut out = [0u8; 426000];
    let n = read_full(&mut rt.stdin(), &mut input);
    let m = listing::list(&input[..n], &mut out);
    rt.stdout().write_all(&out[..m])
}
