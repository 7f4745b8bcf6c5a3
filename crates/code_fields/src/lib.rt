// The fields of a contract code beside its date and its strike.
#![tactic(auto)]

pub mod future; // future.rt: the futures code
pub mod kind; // kind.rt: the option's type and category
