// Points from plain numbers, for the tests.
use board::points::Point;
use grammar::strands::{BackRank, ForeRank, Strand};

pub(crate) fn point(row: u16, column: u16, label: u16) -> Point {
    Point {
        row: BackRank(row),
        column: ForeRank(column),
        label: Strand(label),
    }
}
