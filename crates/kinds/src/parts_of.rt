// The two parts of a file: their bytes by the counts, and their check.
ghost use Rattle.std.specs.Prelude.{◌≡◌, true, ◌≤◌};
ghost use Rattle.parts.specs.Holds.{kind_of, Sized, Counted, parts_right};

use super::kind::Kind;
use format::View;
use parts::PartBytes;

// The bytes of each part. None where the entry counts are not the kind's.
pub fn part_bytes(v: View) -> Option<PartBytes>
    requires { ((kind_of v).allowed ≡ true) × (v.cells ≤ 16777216) × (v.words ≤ v.cells) }
    ensures { Sized (kind_of v) v result }
{
    match Kind::try_from(v.kind) {
        Ok(Kind::Runs) => runs::setting::part_bytes(v),
        Ok(Kind::Positions) => positions::setting::part_bytes(v),
        Ok(Kind::BaseOffset) => base_offset::setting::part_bytes(v),
        Ok(Kind::Jumps) => jumps::setting::part_bytes(v),
        Ok(Kind::PagedRuns) => paged_runs::setting::part_bytes(v),
        Ok(Kind::PointedJumps) => pointed_jumps::setting::part_bytes(v),
        Err(_) => None,
    }
}

// The parts are those of rising positions below cells, as many as the words.
pub fn parts_right(file: &[u8], v: View) -> bool
    requires { Counted (kind_of v) file.now v }
    ensures { result ≡ parts_right (kind_of v) file.now v }
{
    match Kind::try_from(v.kind) {
        Ok(Kind::Runs) => runs::check::parts_right(file, v),
        Ok(Kind::Positions) => positions::check::parts_right(file, v),
        Ok(Kind::BaseOffset) => base_offset::check::parts_right(file, v),
        Ok(Kind::Jumps) => jumps::check::parts_right(file, v),
        Ok(Kind::PagedRuns) => paged_runs::check::parts_right(file, v),
        Ok(Kind::PointedJumps) => pointed_jumps::check::parts_right(file, v),
        Err(_) => false,
    }
}
