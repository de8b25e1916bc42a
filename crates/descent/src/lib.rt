// Kind 5's search through the levels: the walk along a page and the descent to the page below call each other (document 01, "The file").
#![tactic(auto)]

pub mod search;
