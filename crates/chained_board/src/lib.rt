// The board of ships: a chain of points for each row, so that opening a row moves chains and not points.
#![tactic(auto)]

pub mod chained_boards;
pub mod laws;
