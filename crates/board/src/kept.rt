// Boards whose type holds what their calls ask, so that whoever has one need not say it.
ghost use Rattle.board.specs.Answering.{Sizes, Widens, Puts, Locates, Firsts};
ghost use Rattle.board.specs.Meaning.{Meaning, Proper};

use crate::Board;
use crate::points::Point;
use crate::rectangles::Rectangle;
use crate::sizes::Size;
use grammar::refusals::Refusal;
use grammar::strands::{BackRank, ForeRank, Strand};

// A board that is always as its calls ask: there is no other value of the type.
pub trait KeptBoard: Board {
    // Does nothing, and ensures what calls ask: for code that has a board as a `dyn`, where the check does not find the law.
    fn is_ok(&self)
        ensures { Self.ok self.now }
    {}

    // what every call asks holds of every board of the type
    ghost always_ok: { (b : Self) → Self.ok b };
}

// The calls of a board for a type that holds what they ask: they ask nothing. A type that has them has those of `Board`
// and is kept, with no more to write. Clauses that a type adds to a call are known where it is called by this trait; called
// by `Board`, it ensures what every board's does.
pub trait PlainBoard {
    // what a board means: its rows, its columns, its capacity and its points
    ghost means: { Self → Meaning };

    // what a call keeps of a board beside what it means
    ghost keeps: { Self → Self → Type 0 };

    fn size(&self) -> Size
        ensures { Sizes (means self.now) result };

    fn widen(&mut self, row: BackRank, column: ForeRank) -> Result<(), Refusal>
        ensures keeps { keeps self.old self.new }
        ensures widens { Widens (means self.old) row column result (means self.new) };

    fn put(&mut self, point: Point) -> Result<(), Refusal>
        ensures keeps { keeps self.old self.new }
        ensures puts { Puts (means self.old) point result (means self.new) };

    fn locate(&self, label: Strand) -> Option<(BackRank, ForeRank)>
        ensures { Locates (means self.now) label result };

    fn first(&self, within: Rectangle, floor: Strand) -> Option<Strand>
        ensures { Firsts (means self.now) within floor result };

    // every board has all its points on it, and no more rows, columns and points than there may be
    ghost proper: { (b : Self) → Proper (means b) };
}

impl<B: PlainBoard> Board for B {
    ghost means = { λ b. B.PlainBoard.means b };

    ghost ok = { λ _. Unit {0} };

    ghost keeps = { λ b after. B.PlainBoard.keeps b after };

    ghost proper = { λ b _. B.PlainBoard.proper b };

    fn size(&self) -> Size {
        PlainBoard::size(self)
    }

    fn widen(&mut self, row: BackRank, column: ForeRank) -> Result<(), Refusal> {
        PlainBoard::widen(self, row, column)
    }

    fn put(&mut self, point: Point) -> Result<(), Refusal> {
        PlainBoard::put(self, point)
    }

    fn locate(&self, label: Strand) -> Option<(BackRank, ForeRank)> {
        PlainBoard::locate(self, label)
    }

    fn first(&self, within: Rectangle, floor: Strand) -> Option<Strand> {
        PlainBoard::first(self, within, floor)
    }
}

impl<B: PlainBoard> KeptBoard for B {
    ghost always_ok = { λ _. tt };
}
