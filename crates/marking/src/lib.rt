// A mark: what it does, and the mark itself.
#![tactic(auto)]

pub mod change; // change.rt: the mark of a series
pub mod effect; // effect.rt: what a mark does
