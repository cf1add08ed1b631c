// The vocabulary of a book of spliced logs, and the definitions that everything above is proved against.
#![tactic(auto)]

pub mod laws;
pub mod limits;
pub mod refusals;
pub mod strands;
