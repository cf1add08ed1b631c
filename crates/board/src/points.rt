// The points of a board.
use grammar::strands::{BackRank, ForeRank, Strand};

// A point: its row, its column and its label.
#[derive(Clone, Copy, PartialEq, Eq, Default, Debug)]
pub struct Point {
    pub row: BackRank,
    pub column: ForeRank,
    pub label: Strand,
}
