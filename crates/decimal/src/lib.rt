// Decimal text: the rules of its readers and writers. A reader of a number answers the number and the place after its text, or that
// none stands there; a reader of a single byte the place after it.
#![tactic(auto)]

// How many numbers two digits write.
pub const PAIRS: u64 = 100;
