// A listing: whether a series may be listed, the series as it begins, and the book that it joins.
#![tactic(auto)]

pub mod change; // change.rt: the series as it begins
pub mod event; // event.rt: the book that it joins
pub mod verdict; // verdict.rt: whether it may be made
