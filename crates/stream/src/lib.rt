// A replay of the whole input: what it holds between rows and reads, and the rules of what it answers.
#![tactic(auto)]

pub mod bounds;
pub mod types;
