// A row of differences and its jumps, as kinds 4 and 6 have them (document 01, "The file"): one by one, in groups, the jumps after a rank, and the walk of a search.
#![tactic(auto)]

pub mod after;
pub mod groups;
pub mod walk;
