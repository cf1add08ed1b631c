// The board of small units: points in the order put, in a table that the caller lends.
#![tactic(auto)]

pub mod kept;
pub mod list_boards;
