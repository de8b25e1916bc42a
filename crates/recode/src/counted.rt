// What a file measures after an edit, without a pass where the sizes follow from less: from the number of ranks in a kind with so many bytes for each;
// where source and target store runs, from the runs, which are counted from the edit's neighbours.
ghost use Rattle.std.specs.Prelude.{◌≡◌, true, ◌+◌, ◌-◌, ◌≤◌, ◌<◌, length, take, drop};
ghost use Rattle.std.specs.Option.{ForSome};
ghost use Rattle.format.specs.Runs.{runs};
ghost use Rattle.format.specs.Accepted.{positions_of};
ghost use Rattle.parts.specs.Holds.{ViewOf};
ghost use Rattle.format.specs.Kinds.{setting_allowed};
ghost use Rattle.kinds.specs.Steps.{stores_runs};
ghost use Rattle.layout.specs.Laid.{Measures};
ghost use Rattle.edits.specs.Edit.{position_in, edited, left_out, EditOf};
ghost use Rattle.recode.specs.RunCount.{begins, first_begins, end_after, joint};

use edits::Edit;
use format::{Position, Rank, Setting, View};
use kinds::coding::sized_by_ranks;
use kinds::steps::{run_count, stores_runs};
use layout::by_counts;
use parts::Sizes;
use rewrite::edited::measure;
use search::stored_position;

// 1 where the stored cell l begins a run, else 0. The stored cell before it ends at `end`, which is 0 where there is none.
fn run_begins(end: u32, l: u32) -> u32
    ensures { (result ≡ begins end l) × (result ≤ 1) }
{
    if end == 0 {
        return 1;
    }
    if l == end { 0 } else { 1 }
}

// 1 where the rank r begins a run, else 0, also where there is no such rank.
fn rank_begins(file: &[u8], v: View, end: u32, r: u32) -> u32
    requires { ViewOf file.now v × (r ≤ v.words) }
    ensures { (result ≡ first_begins end (drop r (positions_of file.now))) × (result ≤ 1) }
{
    if r == v.words {
        return 0;
    }
    run_begins(end, stored_position(file, v, Rank(r)).0)
}

// Where the rank before r ends; 0 where there is none.
fn end_before(file: &[u8], v: View, r: u32) -> u32
    requires { ViewOf file.now v × (r ≤ v.words) }
    ensures { result ≡ end_after 0 (take r (positions_of file.now)) }
{
    if r == 0 {
        return 0;
    }
    stored_position(file, v, Rank(r - 1)).0 + 1
}

// The runs that begin with the cell `new`, if any, and with the rank `after` behind it.
fn runs_joined(file: &[u8], v: View, end: u32, new: Option<Position>, after: u32) -> u32
    requires { ViewOf file.now v × (after ≤ v.words) × ForSome new (λ p. p.0 < 16777216) }
    ensures { (result ≡ joint end (position_in new) (drop after (positions_of file.now))) × (result ≤ 2) }
{
    let Some(p) = new else {
        return rank_begins(file, v, end, after);
    };
    run_begins(end, p.0) + rank_begins(file, v, p.0 + 1, after)
}

// The runs that begin with the ranks that the edit leaves out and with the rank behind them.
fn runs_lost(file: &[u8], v: View, end: u32, x: Edit) -> u32
    requires { ViewOf file.now v × EditOf file.now x }
    ensures { (result ≡ joint end (left_out x (positions_of file.now)) (drop x.after (positions_of file.now))) × (result ≤ 2) }
{
    if x.before == x.after {
        return runs_joined(file, v, end, None, x.after);
    }
    let m = stored_position(file, v, Rank(x.before));
    runs_joined(file, v, end, Some(m), x.after)
}

// The runs after the edit.
pub fn runs_after(file: &[u8], v: View, x: Edit) -> u32
    requires { ViewOf file.now v × EditOf file.now x × stores_runs v.kind }
    ensures { (result ≡ length (runs (edited x (positions_of file.now)))) × (result ≤ 16777216) }
{
    let end = end_before(file, v, x.before);
    let lost = runs_lost(file, v, end, x);
    let won = runs_joined(file, v, end, x.added, x.after);
    run_count(v) + won - lost
}

// The ranks after the edit.
fn ranks_after(v: View, x: Edit) -> u32
    requires { (x.before ≤ x.after) × (x.after ≤ v.words) × (v.words ≤ 16777216) }
    ensures { (result ≡ x.before + (v.words - x.after) + length (position_in x.added)) × (result ≤ 16777217) }
{
    x.before + (v.words - x.after) + u32::from(x.added.is_some())
}

// What the edited positions measure: along them where it does not follow from less.
pub fn sized(file: &[u8], v: View, x: Edit, s: Setting) -> Option<Sizes>
    requires { ViewOf file.now v × EditOf file.now x × (setting_allowed s ≡ true) }
    ensures { Measures s v.cells (edited x (positions_of file.now)) result }
{
    if sized_by_ranks(s.kind) {
        return Some(by_counts(s, ranks_after(v, x), 0));
    }
    if stores_runs(s.kind) {
        if stores_runs(v.kind) {
            return Some(by_counts(s, ranks_after(v, x), runs_after(file, v, x)));
        }
    }
    measure(file, v, x, s)
}
