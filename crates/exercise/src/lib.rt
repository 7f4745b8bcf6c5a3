// What an evening's exercise does to a series: who exercises, who is assigned, the positions that remain and the futures
// that arise. The rules, and the types that they speak of.
#![tactic(auto)]

pub mod types;
