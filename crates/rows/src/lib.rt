// Rows of input: where they end in a buffer that is refilled, and the event that a row says. The rules, and what the readers answer.
#![tactic(auto)]

pub mod types;
