// A part of a board, and which points a question about it is after.
ghost use Rattle.std.specs.Prelude.{◌≡◌, ◌&&◌, nat_le};
ghost use Rattle.board.specs.Meaning.{inside};
ghost use Rattle.board.specs.Answering.{lowest};

use crate::points::Point;
use grammar::strands::{BackRank, ForeRank, Strand};

// The rows from `top` up to but not `bottom`, and the columns from `left` up to but not `right`.
#[derive(Clone, Copy, PartialEq, Eq, Debug)]
pub struct Rectangle {
    pub top: BackRank,
    pub bottom: BackRank,
    pub left: ForeRank,
    pub right: ForeRank,
}

impl Rectangle {
    // Whether a point stands inside with a label not below the floor.
    pub fn is_hit(self, floor: Strand, point: Point) -> bool
        ensures { result ≡ (nat_le floor.0 point.label.0 && inside self (point.row.0, point.column.0)) }
    {
        floor <= point.label
            && self.top <= point.row
            && point.row < self.bottom
            && self.left <= point.column
            && point.column < self.right
    }
}

// The smaller of the least label so far and one label more.
pub fn lowest_of(least: Option<Strand>, label: Strand) -> Option<Strand>
    ensures { result ≡ lowest least label }
{
    Some(least.map_or(label, |other| other.min(label)))
}
