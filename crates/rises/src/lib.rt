// Rows of rising numbers: positions that are further apart than a number, and pairs of runs that follow on one another.
#![tactic(auto)]

pub mod far;
pub mod pairs;
