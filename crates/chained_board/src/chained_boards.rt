// The chained board and its calls.
ghost use Rattle.std.specs.Prelude.{◌≡◌, ◌≤◌, IfOk, vec_items, vec_capacity};
ghost use Rattle.grammar.specs.Limits.{max_pairs, max_strands};
ghost use Rattle.board.specs.Meaning.{clean};
ghost use Rattle.chained_board.specs.Chains.{Sound};

use board::Board;
use board::changes::{change_each, moved_up};
use board::kept::KeptBoard;
use board::points::Point;
use board::rectangles::{Rectangle, lowest_of};
use board::sizes::Size;
use grammar::limits::{BYTE_STRANDS, MAX_PAIRS, MAX_STRANDS};
use grammar::refusals::Refusal;
use grammar::strands::{BackRank, ForeRank, Strand};
use std::alloc::{AllocError, Global};

// A point, by the number of its chain, its column and its label, and the slot that comes next on the chain: the newest
// of those older than it.
#[derive(Clone, Copy)]
struct Slot {
    chain: usize,
    column: ForeRank,
    label: Strand,
    next: Option<usize>,
}

// A chain has the same number for good, and two tables tell which row it stands in. A label's point is found by its
// slot, its chain and the chain's row, with no walk. Slots are named by index, and all tables have their memory from the
// making on, so that no call can fail for want of it.
#[derive(Drop)]
pub struct ChainedBoard {
    // the points, in the order put
    slots: Vec<Slot>,
    // the chain of each row
    order: Vec<usize>,
    // the row of each chain
    rows: Vec<BackRank>,
    // the newest slot of each chain
    heads: Vec<Option<usize>>,
    // the slot of each label
    labels: Vec<Option<usize>>,
    columns: u16,
    // there is room for all that may come
    pub ghost slot_room: { max_pairs ≤ vec_capacity slots },
    pub ghost order_room: { max_strands ≤ vec_capacity order },
    pub ghost row_room: { max_strands ≤ vec_capacity rows },
    pub ghost head_room: { max_strands ≤ vec_capacity heads },
    // the tables agree, and mean a board
    pub ghost sound: { Sound (record { slots = vec_items slots; order = vec_items order; rows = vec_items rows; heads = vec_items heads; labels = vec_items labels }) columns },
}

impl ChainedBoard {
    ghost use Rattle.chained_board.specs.Boards.{meaning};

    // A clean board, with all the memory that it will ever need.
    pub fn new(heap: Global) -> Result<ChainedBoard, AllocError>
        ensures { IfOk result (λ b. meaning b ≡ clean max_pairs) }
    {
        let slots = Vec::with_capacity(heap, MAX_PAIRS as usize)?;
        let mut order = Vec::with_capacity(heap, MAX_STRANDS as usize)?;
        let mut rows = Vec::with_capacity(heap, MAX_STRANDS as usize)?;
        let mut heads = Vec::with_capacity(heap, MAX_STRANDS as usize)?;
        let labels = vec![in heap; None; MAX_STRANDS as usize]?;
        // one by one into the room taken: all three tables get an element for each row
        for row in 0..BYTE_STRANDS {
            order.push_reserved(row as usize);
            rows.push_reserved(BackRank(row));
            heads.push_reserved(None);
        }
        Ok(ChainedBoard {
            slots,
            order,
            rows,
            heads,
            labels,
            columns: BYTE_STRANDS,
        })
    }
}

impl Board for ChainedBoard {
    ghost use Rattle.chained_board.specs.Boards.{meaning, Stays};

    ghost means = { meaning };

    // what holds of every chained board is in its type, so that no call asks for more
    ghost ok = { λ _. Unit {0} };

    ghost keeps = { Stays };

    ghost proper = { λ b _. b.sound.proper };

    fn size(&self) -> Size {
        Size {
            rows: self.order.len() as u16,
            columns: self.columns,
            points: self.slots.len() as u16,
            capacity: MAX_PAIRS,
        }
    }

    fn widen(&mut self, row: BackRank, column: ForeRank) -> Result<(), Refusal> {
        self.size().may_widen(row, column)?;
        change_each(&mut self.rows, |other| moved_up(other, row));
        self.rows.push_reserved(row);
        self.heads.push_reserved(None);
        let opened = self.order.len();
        // there is room: it was taken when the board was made
        self.order.insert(row.0 as usize, opened).unwrap();
        change_each(
            &mut self.slots,
            |slot| Slot {
                column: moved_up(slot.column, column),
                ..slot
            },
        );
        self.columns += 1;
        Ok(())
    }

    fn put(&mut self, point: Point) -> Result<(), Refusal> {
        self.size().may_put(point, self.locate(point.label))?;
        let slot = self.slots.len();
        let chain = self.order[point.row.0 as usize];
        let next = self.heads[chain];
        self.slots.push_reserved(Slot {
            chain,
            column: point.column,
            label: point.label,
            next,
        });
        self.heads[chain] = Some(slot);
        self.labels[point.label.0 as usize] = Some(slot);
        Ok(())
    }

    fn locate(&self, label: Strand) -> Option<(BackRank, ForeRank)> {
        // `get` would hand out an option behind a reference inside an option
        if label.0 >= MAX_STRANDS {
            return None;
        }
        let slot = self.slots[self.labels[label.0 as usize]?];
        Some((self.rows[slot.chain], slot.column))
    }

    fn first(&self, within: Rectangle, floor: Strand) -> Option<Strand> {
        // the rows asked for, held to the number of rows
        let bottom = (within.bottom.0 as usize).min(self.order.len());
        let top = (within.top.0 as usize).min(bottom);
        let mut least = None;
        'rows: for chain in &self.order[top..bottom] {
            let mut next = self.heads[*chain];
            // from slot to slot, the newest first: nested loops with labels, the form that docs/DECISIONS.md keeps for it
            'points: while let Some(slot) = next {
                let slot = self.slots[slot];
                let Slot { column, label, .. } = slot;
                let row = self.rows[*chain];
                if within.is_hit(floor, Point { row, column, label }) {
                    least = lowest_of(least, label);
                }
                next = slot.next;
            }
        }
        least
    }
}

impl KeptBoard for ChainedBoard {
    ghost always_ok = { λ _. tt };
}
