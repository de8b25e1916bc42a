// The stored cells of a picture counted, and their runs, with none of them listed.
ghost use Rattle.std.specs.Prelude.{◌≡◌, ◌≤◌, length};
ghost use Rattle.format.specs.Stored.{stored};
ghost use Rattle.format.specs.Runs.{runs};

// How many cells are stored, and how many runs they make.
#[derive(Clone, Copy)]
pub struct Tally {
    pub stored: u32,
    pub runs: u32,
}

// The stored cells and the runs of a picture's words.
pub fn count_cells(words: &[u32], empty: u32) -> Tally
    requires { length words.now ≤ 16777216 }
    ensures { (result.stored ≡ length (stored empty words.now)) × (result.runs ≡ length (runs (stored empty words.now))) }
{
    if words.len() == 0 {
        return Tally { stored: 0, runs: 0 };
    }
    let mut stored = u32::from(words[0] != empty);
    let mut runs = stored;
    // By hand: with the word before carried along the loop is slower.
    for i in 1..words.len() {
        stored += u32::from(words[i] != empty);
        runs += u32::from((words[i - 1] == empty) & (words[i] != empty));
    }
    Tally { stored, runs }
}
