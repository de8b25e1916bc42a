// The kinds by their numbers (document 01, "The file"; document 02, S-7): the one place where a kind's number is matched.
ghost use Rattle.kinds.specs.Kind.{kind_read};

use format::Refusal;

#[derive(Clone, Copy, Debug, PartialEq, Eq)]
pub enum Kind {
    Runs,
    Positions,
    BaseOffset,
    Jumps,
    PagedRuns,
    PointedJumps,
}

impl TryFrom<u32> for Kind {
    type Error = Refusal;

    ghost try_from_gives = { kind_read };

    #[inline(always)]
    fn try_from(number: u32) -> Result<Kind, Refusal> {
        match number {
            1 => Ok(Kind::Runs),
            2 => Ok(Kind::Positions),
            3 => Ok(Kind::BaseOffset),
            4 => Ok(Kind::Jumps),
            5 => Ok(Kind::PagedRuns),
            6 => Ok(Kind::PointedJumps),
            _ => Err(Refusal::Kind),
        }
    }
}
