// The board: the grid of points under the index. One meaning, which every implementation is proved against, so that two
// boards that mean the same answer alike.
#![tactic(auto)]

ghost use Rattle.board.specs.Meaning.{Meaning, Proper};
ghost use Rattle.board.specs.Answering.{Sizes, Widens, Puts, Locates, Firsts};

pub mod calls;
pub mod changes;
pub mod kept;
pub mod laws;
pub mod points;
pub mod rectangles;
pub mod sizes;

use grammar::refusals::Refusal;
use grammar::strands::{BackRank, ForeRank, Strand};
use points::Point;
use rectangles::Rectangle;
use sizes::Size;

// A grid of points. A point has a row, a column and a label of 0 to 2,047, and no two points share a label. Rows are
// named by back ranks and columns by fore ranks.
pub trait Board {
    // what a board means: its rows, its columns, its capacity and its points
    ghost means: { Self → Meaning };

    // what every call asks of a board and keeps; whoever makes boards ensures it
    ghost ok: { Self → Type 0 };

    // what a call keeps of a board beside what it means, say the order of its points or its memory
    ghost keeps: { Self → Self → Type 0 };

    // The rows, the columns, the points and the capacity.
    fn size(&self) -> Size
        requires { ok self.now }
        ensures { Sizes (means self.now) result };

    // Opens a row and a column: points at or past them move up one, and both counts grow by one. Row and column are two
    // arguments of two types, which a struct would only wrap at each call.
    fn widen(&mut self, row: BackRank, column: ForeRank) -> Result<(), Refusal>
        requires { ok self.old }
        ensures ok { ok self.new }
        ensures keeps { keeps self.old self.new }
        ensures widens { Widens (means self.old) row column result (means self.new) };

    // Adds a point.
    fn put(&mut self, point: Point) -> Result<(), Refusal>
        requires { ok self.old }
        ensures ok { ok self.new }
        ensures keeps { keeps self.old self.new }
        ensures puts { Puts (means self.old) point result (means self.new) };

    // The row and the column of a label's point, or that the label is absent.
    fn locate(&self, label: Strand) -> Option<(BackRank, ForeRank)>
        requires { ok self.now }
        ensures { Locates (means self.now) label result };

    // The smallest label not below the floor among the points inside, or none. Two arguments, since the floor rises from
    // question to question while the rectangle stays.
    fn first(&self, within: Rectangle, floor: Strand) -> Option<Strand>
        requires { ok self.now }
        ensures { Firsts (means self.now) within floor result };

    // such a board has all its points on it, and no more rows, columns and points than there may be
    ghost proper: { (b : Self) → ok b → Proper (means b) };
}
