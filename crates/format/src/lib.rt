// The declared types of the archive (document 01). Their meaning is in specs/; there is no code here but a refusal's number and a view's setting.
#![tactic(auto)]

ghost use Rattle.std.specs.Prelude.{◌≡◌};
ghost use Rattle.format.specs.Signals.{signal_number};

// A position in the picture: LP in source document 000.
#[derive(Clone, Copy)]
pub struct Position(pub u32);

// A rank among the stored words: SP in source document 000.
#[derive(Clone, Copy)]
pub struct Rank(pub u32);

// Kind, width and step.
#[derive(Clone, Copy, PartialEq, Eq)]
pub struct Setting {
    pub kind: u32,
    pub width: u32,
    pub step: u32,
}

// The header's length; the first part begins there.
pub const HEADER: usize = 52;

// The most dimensions: extents and coordinates travel as so many numbers.
pub const DIMS: usize = 4;

pub type Coordinates = [u32; DIMS];

// The dimension count, and the extents: 1 past the count.
#[derive(Clone, Copy)]
pub struct Dimensions {
    pub count: u32,
    pub extents: Coordinates,
}

// The signal list (document 01): why a call refuses.
#[derive(Clone, Copy, Debug, PartialEq, Eq)]
pub enum Refusal {
    Short,
    Kind,
    Setting,
    Extent,
    Counts,
    Body,
    Picture,
    Beyond,
    Unfit,
    Small,
    Other,
}

// Its number.
impl From<Refusal> for u32 {
    ghost from_gives = { λ r n. n ≡ signal_number r };

    fn from(r: Refusal) -> u32 {
        match r {
            Refusal::Short => 1,
            Refusal::Kind => 2,
            Refusal::Setting => 3,
            Refusal::Extent => 4,
            Refusal::Counts => 5,
            Refusal::Body => 6,
            Refusal::Picture => 7,
            Refusal::Beyond => 8,
            Refusal::Unfit => 9,
            Refusal::Small => 10,
            Refusal::Other => 11,
        }
    }
}

// Rank at a position; at an empty cell the number of stored cells before it, which is the rank that a word written there would have.
#[derive(Clone, Copy)]
pub enum RankAnswer {
    Rank(Rank),
    Empty(Rank),
}

// The header's numbers: setting, cells, the empty word, the counts of stored words and of the entries of each part, and the offsets of first part,
// second part and stored words. An opened file keeps them.
#[derive(Clone, Copy)]
pub struct View {
    pub kind: u32,
    pub width: u32,
    pub step: u32,
    pub cells: u32,
    pub empty: u32,
    pub words: u32,
    pub firsts: u32,
    pub seconds: u32,
    pub start: u32,
    pub second: u32,
    pub place: u32,
}

impl View {
    // Its kind, width and step.
    pub fn setting(self) -> Setting
        ensures { result ≡ record { kind = self.kind; width = self.width; step = self.step } }
    {
        Setting {
            kind: self.kind,
            width: self.width,
            step: self.step,
        }
    }
}
