// The trading calendar: the dates on which the exchange trades, and the days that they have in the book. It is lent as a list of numbers,
// a date being the number YYMMDD.
#![tactic(auto)]

pub mod bounds;
pub mod types;
