// The counts (document 01, "The file").
ghost use Rattle.std.specs.Prelude.{◌≡◌, ◌≤◌};
ghost use Rattle.format.specs.BaseOffset.{based_kind};

use format::View;

// The bases are as many as the words ask for, and there is an offset for each word.
pub fn counts_right(v: View) -> bool
    requires { (v.words ≤ 16777216) × (1 ≤ v.step) × (v.step ≤ 255) }
    ensures { result ≡ (based_kind v.width v.step).counts v.cells v.words v.firsts v.seconds }
{
    v.firsts == v.words.div_ceil(v.step) && v.seconds == v.words
}
