// What the surveyor sees, as functions from bytes to text.
#![tactic(auto)]

pub mod laws;
pub mod listing;
