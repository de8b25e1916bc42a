// The stored words after an edit, copied in bulk.
ghost use Rattle.std.specs.Prelude.{◌≡◌, ◌+◌, ◌*◌, ◌≤◌, length};
ghost use Rattle.format.specs.Bytes.{bytes_of};
ghost use Rattle.format.specs.Accepted.{kept_of};
ghost use Rattle.stores.specs.Put.{put};
ghost use Rattle.parts.specs.Holds.{ViewOf};
ghost use Rattle.edits.specs.Edit.{listed, overlaid, EditOf};

use super::Edit;
use format::View;
use stores::copy::copy;
use stores::put_u32;

// The new word at `at`, if any; the place after it.
fn put_word(dst: &mut [u8], at: usize, new: Option<u32>) -> usize
    requires { at + length (bytes_of 4 (listed new)) ≤ length dst.old }
    ensures { (result ≡ at + length (bytes_of 4 (listed new))) × (dst.new ≡ put dst.old at (bytes_of 4 (listed new))) }
{
    let Some(word) = new else {
        return at;
    };
    put_u32(dst, at, word);
    at + 4
}

// The words after the edit, 4 bytes each, at `place`; `word` is the new one. Stored words are copied in bulk.
pub fn put_words(dst: &mut [u8], place: usize, file: &[u8], v: View, x: Edit, word: u32)
    requires { ViewOf file.now v × EditOf file.now x × (place + 4 * length (overlaid x word (kept_of file.now)) ≤ length dst.old) }
    ensures { dst.new ≡ put dst.old place (bytes_of 4 (overlaid x word (kept_of file.now))) }
{
    let words = v.place as usize;
    let front = 4 * x.before as usize;
    copy(dst, place, file, words, front);
    let at = put_word(dst, place + front, x.added.and(Some(word)));
    let from = words + 4 * x.after as usize;
    copy(dst, at, file, from, file.len() - from);
}
