// The header's fields, read once into numbers (document 01, "The file").
ghost use Rattle.std.specs.Prelude.{◌≡◌};
ghost use Rattle.format.specs.File.{WholeHeader};
ghost use Rattle.format.specs.Accepted.{setting_of, dimensions_of};
ghost use Rattle.format.specs.Opened.{view_of};
ghost use Rattle.header.specs.Fields.{counts_in, Whole};

use super::extents::cell_count;
use format::{Dimensions, HEADER, Setting, View};
use wire::{get_u8, get_u32};

// N, the entry counts of the first and second part, and the offsets of first part, second part and stored words.
#[derive(Clone, Copy)]
struct Counts {
    words: u32,
    firsts: u32,
    seconds: u32,
    start: u32,
    second: u32,
    place: u32,
}

// Whether the bytes have a whole header.
pub fn whole_header(file: &[u8]) -> bool
    ensures { Whole file.now result }
{
    HEADER <= file.len()
}

// Kind, width and step.
pub fn read_setting(file: &[u8]) -> Setting
    requires { WholeHeader file.now }
    ensures { result ≡ setting_of file.now }
{
    Setting {
        kind: get_u8(file, 0),
        width: get_u8(file, 2),
        step: get_u8(file, 3),
    }
}

// The dimension count and the extents.
pub fn read_dimensions(file: &[u8]) -> Dimensions
    requires { WholeHeader file.now }
    ensures { result ≡ dimensions_of file.now }
{
    Dimensions {
        count: get_u8(file, 1),
        extents: [
            get_u32(file, 4),
            get_u32(file, 8),
            get_u32(file, 12),
            get_u32(file, 16),
        ],
    }
}

// The counts and offsets.
fn read_counts(file: &[u8]) -> Counts
    requires { WholeHeader file.now }
    ensures { result ≡ counts_in file.now }
{
    Counts {
        words: get_u32(file, 24),
        firsts: get_u32(file, 28),
        seconds: get_u32(file, 32),
        start: get_u32(file, 36),
        second: get_u32(file, 40),
        place: get_u32(file, 44),
    }
}

// The header's numbers; no cells where the dimensions are not a picture's.
pub fn read_view(file: &[u8]) -> View
    requires { WholeHeader file.now }
    ensures { result ≡ view_of file.now }
{
    let setting = read_setting(file);
    let cells = cell_count(read_dimensions(file)).unwrap_or(0);
    let empty = get_u32(file, 20);
    let counts = read_counts(file);
    View {
        kind: setting.kind,
        width: setting.width,
        step: setting.step,
        cells,
        empty,
        words: counts.words,
        firsts: counts.firsts,
        seconds: counts.seconds,
        start: counts.start,
        second: counts.second,
        place: counts.place,
    }
}
