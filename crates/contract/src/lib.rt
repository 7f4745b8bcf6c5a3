// Contract codes, as GAZR-3.23M150323CA17000 and GAZR-3.23M150323CA 17000: the rules of the reader and the writer, and the types
// that they speak of.
#![tactic(auto)]

pub mod bounds; // bounds.rt: how long a code and its parts are
pub mod types; // types.rt: the terms and the answers
