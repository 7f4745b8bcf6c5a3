// The clearing book: every event is carried out or refused, with the money of all accounts beside the answer. The rules, and the
// types that they speak of.
#![tactic(auto)]

pub mod state;
