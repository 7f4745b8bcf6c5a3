// Requests and refusals of exercise: what they do, and where they are kept.
#![tactic(auto)]

pub mod change; // change.rt: where they are kept
pub mod effect; // effect.rt: what they do
