// A trade: what it does, and the positions that it moves.
#![tactic(auto)]

pub mod change; // change.rt: the positions that it moves
pub mod effect; // effect.rt: what a trade does
