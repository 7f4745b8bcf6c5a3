// One series: its listing, its mark, and the positions, requests, declines and futures of each place; what the events of a
// day do to it, and under which conditions they are refused. The rules, and the types that they speak of.
#![tactic(auto)]

pub mod event;
pub mod refusal;
pub mod state;
