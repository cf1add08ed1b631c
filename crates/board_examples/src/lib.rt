// Both boards side by side, and examples that are run on them.
#![tactic(auto)]

#[cfg(test)]
mod both_boards;
#[cfg(test)]
mod each_board;
#[cfg(test)]
mod kept_boards;
#[cfg(test)]
mod lent_tables;
#[cfg(test)]
mod points;
pub mod side_by_side;
pub mod throws;
