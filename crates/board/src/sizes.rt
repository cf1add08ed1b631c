// The size of a board, and what it allows.
ghost use Rattle.std.specs.Prelude.{◌≡◌, is_some};

use crate::points::Point;
use grammar::limits::MAX_STRANDS;
use grammar::refusals::Refusal;
use grammar::strands::{BackRank, ForeRank};

// How many rows, columns and points a board has, and how many points it can have.
#[derive(Clone, Copy, PartialEq, Eq, Debug)]
pub struct Size {
    pub rows: u16,
    pub columns: u16,
    pub points: u16,
    pub capacity: u16,
}

// Ranks and labels are held to counts by their numbers: a count is no rank and no label, so their own order does not serve.
impl Size {
    ghost use Rattle.board.specs.Answering.{covered, put_fault, settled, widen_fault};

    // Whether a board of this size may open a row and a column, or why not.
    pub fn may_widen(self, row: BackRank, column: ForeRank) -> Result<(), Refusal>
        ensures { result ≡ settled (widen_fault self row.0 column.0) }
    {
        if self.rows >= MAX_STRANDS || self.columns >= MAX_STRANDS {
            return Err(Refusal::BoardAtLimit);
        }
        if row.0 > self.rows || column.0 > self.columns {
            return Err(Refusal::OffBoard);
        }
        Ok(())
    }

    // Whether a point's row and column are on a board of this size, and its label within the limit: only then does it matter
    // whether the label stands already.
    pub fn covers(self, point: Point) -> bool
        ensures { result ≡ covered self point.row.0 point.column.0 point.label.0 }
    {
        point.row.0 < self.rows && point.column.0 < self.columns && point.label.0 < MAX_STRANDS
    }

    // Whether a board of this size may add a point, or why not, by where its label stands already.
    pub fn may_put(
        self,
        point: Point,
        standing: Option<(BackRank, ForeRank)>,
    ) -> Result<(), Refusal>
        ensures { result ≡ settled (put_fault self (is_some standing) point.row.0 point.column.0 point.label.0) }
    {
        if point.row.0 >= self.rows || point.column.0 >= self.columns {
            return Err(Refusal::OffBoard);
        }
        if point.label.0 >= MAX_STRANDS || standing.is_some() {
            return Err(Refusal::LabelTaken);
        }
        if self.points >= self.capacity {
            return Err(Refusal::BoardFull);
        }
        Ok(())
    }
}
