// A board whose points stand in the caller's table in the order put.
ghost use Rattle.std.specs.Prelude.{◌≡◌, min, length};
ghost use Rattle.board.specs.Answering.{Puts, Widens};
ghost use Rattle.board.specs.Meaning.{clean};
ghost use Rattle.grammar.specs.Limits.{max_strands};
ghost use Rattle.list_board.specs.Listed.{listed};
ghost use Rattle.list_board.specs.Listing.{Follows, IndexOf, Whole, fresh, leaves, meaning, records, with_opening, with_point};

use board::Board;
use board::changes::{change_each, moved_up};
use board::points::Point;
use board::rectangles::{Rectangle, lowest_of};
use board::sizes::Size;
use grammar::limits::{BYTE_STRANDS, MAX_STRANDS};
use grammar::refusals::Refusal;
use grammar::strands::{BackRank, ForeRank, Strand};

// Points in the order put, in a table that the caller lends, with their number beside it: small units have no heap. What
// every call asks of them and keeps is said by the calls, and not by the type: so a function may take a board by value, and
// boards may stand in an array.
#[derive(Drop)]
pub struct ListBoard<'a> {
    table: &'a mut [Point],
    filled: usize,
    rows: u16,
    columns: u16,
}

impl<'a> ListBoard<'a> {
    // A clean board. Its capacity is the table's length, or 2,048 where the table is longer.
    pub fn new(table: &'a mut [Point]) -> ListBoard<'a>
        ensures ok { Whole (listed result) }
        ensures is { listed result ≡ fresh table.old }
        ensures means { meaning (listed result) ≡ clean (min (length table.old) max_strands) }
    {
        let capacity = table.len().min(MAX_STRANDS as usize);
        ListBoard {
            table: &mut table[0..capacity],
            filled: 0,
            rows: BYTE_STRANDS,
            columns: BYTE_STRANDS,
        }
    }

    // The points in the order put.
    pub fn points(&self) -> &[Point]
        requires { Whole (listed self.now) }
        ensures { result.now ≡ records (listed self.now) }
    {
        &self.table[0..self.filled]
    }

    // The index of a label's record, or that the label is absent. It goes through the records with their index, the form
    // that docs/DECISIONS.md keeps for it.
    fn index_of(&self, label: Strand) -> Option<usize>
        requires { Whole (listed self.now) }
        ensures { IndexOf (records (listed self.now)) label.0 result }
    {
        for (i, point) in self.points().iter().enumerate() {
            if point.label == label {
                return Some(i);
            }
        }
        None
    }
}

#[tactic(auto, using(crate::proofs::Listings::stays))]
impl Board for ListBoard<'_> {
    ghost means = { λ b. meaning (listed b) };

    ghost ok = { λ b. Whole (listed b) };

    ghost keeps = { λ b after. Follows (listed b) (listed after) };

    ghost proper = { λ _ whole. whole.proper };

    fn size(&self) -> Size {
        Size {
            rows: self.rows,
            columns: self.columns,
            points: self.filled as u16,
            capacity: self.table.len() as u16,
        }
    }

    // Moves the points at or past the row or the column, where they stand.
    fn widen(&mut self, row: BackRank, column: ForeRank) -> Result<(), Refusal>
        requires { Whole (listed self.old) }
        ensures ok { Whole (listed self.new) }
        ensures keeps { Follows (listed self.old) (listed self.new) }
        ensures widens { Widens (meaning (listed self.old)) row column result (meaning (listed self.new)) }
        ensures holds { listed self.new ≡ leaves result (listed self.old) (with_opening (listed self.old) row.0 column.0) }
    {
        self.size().may_widen(row, column)?;
        self.rows += 1;
        self.columns += 1;
        let filled = self.filled;
        change_each(
            &mut self.table[0..filled],
            |point| Point {
                row: moved_up(point.row, row),
                column: moved_up(point.column, column),
                ..point
            },
        );
        Ok(())
    }

    // Puts a point behind the others.
    fn put(&mut self, point: Point) -> Result<(), Refusal>
        requires { Whole (listed self.old) }
        ensures ok { Whole (listed self.new) }
        ensures keeps { Follows (listed self.old) (listed self.new) }
        ensures puts { Puts (meaning (listed self.old)) point result (meaning (listed self.new)) }
        ensures holds { listed self.new ≡ leaves result (listed self.old) (with_point (listed self.old) point) }
    {
        let size = self.size();
        // looked for only where it matters: off the board, or past the limit of labels, it is declined all the same
        let standing = if size.covers(point) {
            self.locate(point.label)
        } else {
            None
        };
        size.may_put(point, standing)?;
        self.table[self.filled] = point;
        self.filled += 1;
        Ok(())
    }

    fn locate(&self, label: Strand) -> Option<(BackRank, ForeRank)> {
        let point = self.table[self.index_of(label)?];
        Some((point.row, point.column))
    }

    fn first(&self, within: Rectangle, floor: Strand) -> Option<Strand> {
        let mut least = None;
        for point in self.points() {
            if within.is_hit(floor, *point) {
                least = lowest_of(least, point.label);
            }
        }
        least
    }
}
