// A list board whose type holds what its calls ask.
ghost use Rattle.std.specs.Prelude.{◌≡◌, min, length};
ghost use Rattle.board.specs.Answering.{Puts, Widens};
ghost use Rattle.board.specs.Meaning.{clean};
ghost use Rattle.grammar.specs.Limits.{max_strands};
ghost use Rattle.list_board.specs.Listed.{listed};
ghost use Rattle.list_board.specs.Listing.{Follows, Whole, fresh, leaves, meaning, records, with_opening, with_point};

use crate::list_boards::ListBoard;
use board::Board;
use board::kept::KeptBoard;
use board::points::Point;
use board::rectangles::Rectangle;
use board::sizes::Size;
use grammar::refusals::Refusal;
use grammar::strands::{BackRank, ForeRank, Strand};

// A list board, and that it is as its calls ask. Whoever has one need say nothing of it: a function may take it by
// reference, and a struct keep it, with no word on its records.
#[derive(Drop)]
pub struct KeptListBoard<'a> {
    board: ListBoard<'a>,
    pub ghost whole: { Whole (listed board) },
}

impl<'a> KeptListBoard<'a> {
    ghost use Rattle.list_board.specs.Kept.{kept_listed};

    // A clean board. Its capacity is the table's length, or 2,048 where the table is longer.
    pub fn new(table: &'a mut [Point]) -> KeptListBoard<'a>
        ensures is { kept_listed result ≡ fresh table.old }
        ensures means { meaning (kept_listed result) ≡ clean (min (length table.old) max_strands) }
    {
        KeptListBoard {
            board: ListBoard::new(table),
        }
    }

    // The points in the order put.
    pub fn points(&self) -> &[Point]
        ensures { result.now ≡ records (kept_listed self.now) }
    {
        self.board.points()
    }
}

impl Board for KeptListBoard<'_> {
    ghost use Rattle.list_board.specs.Kept.{kept_listed};

    ghost means = { λ b. meaning (kept_listed b) };

    ghost ok = { λ _. Unit {0} };

    ghost keeps = { λ b after. Follows (kept_listed b) (kept_listed after) };

    ghost proper = { λ b _. b.whole.proper };

    fn size(&self) -> Size {
        self.board.size()
    }

    fn widen(&mut self, row: BackRank, column: ForeRank) -> Result<(), Refusal>
        ensures keeps { Follows (kept_listed self.old) (kept_listed self.new) }
        ensures widens { Widens (meaning (kept_listed self.old)) row column result (meaning (kept_listed self.new)) }
        ensures holds { kept_listed self.new ≡ leaves result (kept_listed self.old) (with_opening (kept_listed self.old) row.0 column.0) }
    {
        self.board.widen(row, column)
    }

    fn put(&mut self, point: Point) -> Result<(), Refusal>
        ensures keeps { Follows (kept_listed self.old) (kept_listed self.new) }
        ensures puts { Puts (meaning (kept_listed self.old)) point result (meaning (kept_listed self.new)) }
        ensures holds { kept_listed self.new ≡ leaves result (kept_listed self.old) (with_point (kept_listed self.old) point) }
    {
        self.board.put(point)
    }

    fn locate(&self, label: Strand) -> Option<(BackRank, ForeRank)> {
        self.board.locate(label)
    }

    fn first(&self, within: Rectangle, floor: Strand) -> Option<Strand> {
        self.board.first(within, floor)
    }
}

impl KeptBoard for KeptListBoard<'_> {
    ghost always_ok = { λ _. tt };
}
