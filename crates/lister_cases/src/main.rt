// Lists each file that an argument names, after its name, by the lister's own function.
#![tactic(auto)]

ghost use Rattle.std.specs.Prelude.{◌≤◌, length};

use listing::input::read_full;
use std::env::{Env, FillError};
use std::fs::File;
use std::io::Write;
use std::{io, str};

// The file open for reading.
fn list_open(rt: &HostRuntime, file: &mut File) -> io::Result<()> {
    let mut input = [0u8; 65537];
    let mut out = [0u8; 426000];
    let n = read_full(file, &mut input);
    let m = listing::list(&input[..n], &mut out);
    rt.stdout().write_all(&out[..m])
}

// The library opens only what has a text for a name.
fn open_read(rt: &HostRuntime, path: &[u8]) -> io::Result<File> {
    match str::from_utf8(path) {
        Ok(name) => File::open(rt, name),
        Err(_) => Err(io::Error::from(io::ErrorKind::InvalidFilename)),
    }
}

// Where the text of an error goes on with the system's number.
fn without_number(text: &[u8]) -> usize
    ensures { result ≤ length text.now }
{
    let number = b" (os error ";
    for i in 0..text.len() {
        if text[i..].starts_with(number) {
            return i;
        }
    }
    text.len()
}

// A line on standard error: what failed, a colon and the system's text, without its number.
fn fail(rt: &HostRuntime, what: &[u8], error: &io::Error) -> io::Result<()> {
    let mut line = [0u8; 256];
    let mut rest: &mut [u8] = &mut line;
    write!(rest, "{error}")?;
    let left = rest.len();
    let text = &line[..256_usize.saturating_sub(left)];
    let mut err = rt.stderr();
    err.write_all(what)?;
    err.write_all(b": ")?;
    err.write_all(&text[..without_number(text)])?;
    err.write_all(b"\n")
}

fn list_argument(rt: &HostRuntime, path: &[u8]) -> io::Result<()> {
    let mut out = rt.stdout();
    out.write_all(path)?;
    out.write_all(b":\n")?;
    match open_read(rt, path) {
        Ok(mut file) => list_open(rt, &mut file),
        Err(error) => fail(rt, path, &error),
    }
}

fn main(rt: HostRuntime) -> io::Result<()> {
    let mut path = [0u8; 4096];
    for i in 1..usize::MAX {
        let n = match rt.arg(i, &mut path) {
            Ok(n) => n,
            // A name that is too long is taken as the empty one.
            Err(FillError::TooLong) => 0,
            Err(FillError::NotPresent) => break,
        };
        list_argument(&rt, &path[..n])?;
    }
    Ok(())
}
