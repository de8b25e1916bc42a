// The setting of a file changed.
ghost use Rattle.format.specs.Answers.{signal_of};
ghost use Rattle.format.specs.Calls.{Changed};
ghost use Rattle.writing.specs.Same.{Copied};

use checked::check;
use edits::Edit;
use format::{Refusal, Setting};
use kinds::setting::check_setting;
use recode::recoded;
use stores::copy::copy;

// The file as it is: its bytes in the destination's first, or 10.
fn copy_file(file: &[u8], dst: &mut [u8]) -> Result<(), Refusal>
    ensures { Copied file.now dst.old (signal_of result) dst.new }
{
    if dst.len() < file.len() {
        return Err(Refusal::Small);
    }
    copy(dst, 0, file, 0, file.len());
    Ok(())
}

// The file of the same words in the setting s in the destination's first bytes; refused with 1 to 6, then 2 and 3 of the new setting, then 9, 10.
pub fn change(file: &[u8], s: Setting, dst: &mut [u8]) -> Result<(), Refusal>
    ensures { Changed file.now s dst.old (signal_of result) dst.new }
{
    let v = check(file)?;
    check_setting(s)?;
    if s == v.setting() {
        return copy_file(file, dst);
    }
    let all = Edit {
        before: v.words,
        added: None,
        after: v.words,
    };
    recoded(file, v, all, 0, s, dst)
}
