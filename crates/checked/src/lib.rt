// The complete check of a file (document 01, "The signal list", 1 to 6).
#![tactic(auto)]

ghost use Rattle.std.specs.Prelude.{◌≡◌, true, ◌≤◌};
ghost use Rattle.format.specs.File.{WholeHeader};
ghost use Rattle.format.specs.Picture.{dimensions_allowed};
ghost use Rattle.format.specs.Accepted.{dimensions_of, counts_right, header_number};
ghost use Rattle.format.specs.Answers.{signal_of};
ghost use Rattle.format.specs.Opened.{view_of, no_view};
ghost use Rattle.parts.specs.Holds.{kind_of, HeaderView};
ghost use Rattle.checked.specs.Verdict.{places_right, body_number, Judged};

use format::{HEADER, Refusal, View};
use header::view::{read_view, whole_header};
use kinds::parts_of::{part_bytes, parts_right};
use kinds::setting::check_setting;
use wire::get_u32;
use words::words_right;

// A view with all numbers 0.
pub fn no_view() -> View
    ensures { result ≡ no_view }
{
    View {
        kind: 0,
        width: 0,
        step: 0,
        cells: 0,
        empty: 0,
        words: 0,
        firsts: 0,
        seconds: 0,
        start: 0,
        second: 0,
        place: 0,
    }
}

// The offsets and the length are those of parts with so many bytes, and the bytes lent are as many as the length.
fn places_right(file: &[u8], v: View, first: usize, second: usize) -> bool
    requires { WholeHeader file.now × (first ≤ 1099511627776) × (second ≤ 1099511627776) }
    ensures { result ≡ places_right file.now v first second }
{
    let words = HEADER + first + second;
    let end = words + 4 * v.words as usize;
    (v.start as usize == HEADER)
        & (v.second as usize == HEADER + first)
        & (v.place as usize == words)
        & (get_u32(file, 48) as usize == end)
        & (file.len() == end)
}

// 5 does not apply: N is at most cells, and counts, offsets and length are the layout's.
fn counts_right(file: &[u8], v: View) -> bool
    requires { WholeHeader file.now × (v ≡ view_of file.now) × ((kind_of v).allowed ≡ true) × (dimensions_allowed (dimensions_of file.now) ≡ true) }
    ensures { result ≡ counts_right file.now }
{
    if v.cells < v.words {
        return false;
    }
    let Some(parts) = part_bytes(v) else {
        return false;
    };
    places_right(file, v, parts.first, parts.second)
}

// A header whose numbers have been read is refused with the first of 2 to 5 that applies.
fn check_header(file: &[u8], v: View) -> Result<(), Refusal>
    requires { WholeHeader file.now × (v ≡ view_of file.now) }
    ensures { signal_of result ≡ header_number file.now }
{
    check_setting(v.setting())?;
    if v.cells == 0 {
        return Err(Refusal::Extent);
    }
    if !counts_right(file, v) {
        return Err(Refusal::Counts);
    }
    Ok(())
}

// 6 where the parts or the words are not a picture's.
fn check_body(file: &[u8], v: View) -> Result<(), Refusal>
    requires { HeaderView file.now v }
    ensures { signal_of result ≡ body_number file.now }
{
    if parts_right(file, v) && words_right(file, v.place as usize, v.words, v.empty) {
        return Ok(());
    }
    Err(Refusal::Body)
}

// The view of an accepted file; others are refused with the first of 1 to 6 that applies.
pub fn check(file: &[u8]) -> Result<View, Refusal>
    ensures { Judged file.now result }
{
    if !whole_header(file) {
        return Err(Refusal::Short);
    }
    let view = read_view(file);
    check_header(file, view)?;
    check_body(file, view)?;
    Ok(view)
}
