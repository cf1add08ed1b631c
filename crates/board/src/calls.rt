// The calls of a board as values: a list of them is served in order, and two boards are held side by side.
ghost use Rattle.std.specs.Prelude.{◌≡◌, IfOk, MatchResult};
ghost use Rattle.board.specs.Serving.{Serves, Runs, of_one, of_other};

use crate::Board;
use crate::kept::KeptBoard;
use crate::points::Point;
use crate::rectangles::Rectangle;
use crate::sizes::Size;
use grammar::refusals::Refusal;
use grammar::strands::{BackRank, ForeRank, Strand};
use std::alloc::{AllocError, Global};

// A call with its arguments.
#[derive(Clone, Copy, PartialEq, Debug)]
pub enum Call {
    AskSize,
    Widen { row: BackRank, column: ForeRank },
    Put(Point),
    Locate { label: Strand },
    First { within: Rectangle, floor: Strand },
}

// What a call answers: the counts, whether it was accepted, a place or a label.
#[derive(Clone, Copy, PartialEq, Debug)]
pub enum Answer {
    Counts(Size),
    Settled(Result<(), Refusal>),
    Place(Option<(BackRank, ForeRank)>),
    Label(Option<Strand>),
}

// Makes a call. A match over calls as values, since contracts speak of lists of them.
pub fn serve<B: Board>(board: &mut B, call: Call) -> Answer
    requires { B.ok board.old }
    ensures ok { B.ok board.new }
    ensures serves { Serves (B.means board.old) call result (B.means board.new) }
{
    match call {
        Call::AskSize => Answer::Counts(board.size()),
        Call::Widen { row, column } => Answer::Settled(board.widen(row, column)),
        Call::Put(point) => Answer::Settled(board.put(point)),
        Call::Locate { label } => Answer::Place(board.locate(label)),
        Call::First { within, floor } => Answer::Label(board.first(within, floor)),
    }
}

// Makes a call on two boards. Where they mean the same they answer alike, and mean the same afterwards.
pub fn serve_both<A: Board, B: Board>(one: &mut A, other: &mut B, call: Call) -> (Answer, Answer)
    requires one { A.ok one.old }
    requires other { B.ok other.old }
    ensures one_ok { A.ok one.new }
    ensures other_ok { B.ok other.new }
    ensures one { Serves (A.means one.old) call result.0 (A.means one.new) }
    ensures other { Serves (B.means other.old) call result.1 (B.means other.new) }
    ensures alike { A.means one.old ≡ B.means other.old → (result.0 ≡ result.1) × (A.means one.new ≡ B.means other.new) }
{
    (serve(one, call), serve(other, call))
}

// Makes the same list of calls on two boards, side by side, and keeps what both answer. Where the boards mean the same,
// every call is answered alike. Memory is taken first: where it is short, no call is made.
pub fn replay_both_ok<A: Board, B: Board>(
    heap: Global,
    one: &mut A,
    other: &mut B,
    calls: &[Call],
) -> Result<Vec<(Answer, Answer)>, AllocError>
    requires one { A.ok one.old }
    requires other { B.ok other.old }
    ensures one_ok { A.ok one.new }
    ensures other_ok { B.ok other.new }
    ensures one { MatchResult result (λ both. Runs (A.means one.old) calls.now (of_one both.items) (A.means one.new)) (λ _. A.means one.new ≡ A.means one.old) }
    ensures other { MatchResult result (λ both. Runs (B.means other.old) calls.now (of_other both.items) (B.means other.new)) (λ _. B.means other.new ≡ B.means other.old) }
    ensures alike { A.means one.old ≡ B.means other.old → IfOk result (λ both. (of_one both.items ≡ of_other both.items) × (A.means one.new ≡ B.means other.new)) }
{
    let mut answers = Vec::with_capacity(heap, calls.len())?;
    for call in calls {
        let both = serve_both(one, other, *call);
        answers.push_reserved(both);
    }
    Ok(answers)
}

// The same for boards whose types hold what their calls ask, so that it asks for nothing.
pub fn replay_both<A: KeptBoard, B: KeptBoard>(
    heap: Global,
    one: &mut A,
    other: &mut B,
    calls: &[Call],
) -> Result<Vec<(Answer, Answer)>, AllocError>
    ensures one { MatchResult result (λ both. Runs (A.means one.old) calls.now (of_one both.items) (A.means one.new)) (λ _. A.means one.new ≡ A.means one.old) }
    ensures other { MatchResult result (λ both. Runs (B.means other.old) calls.now (of_other both.items) (B.means other.new)) (λ _. B.means other.new ≡ B.means other.old) }
    ensures alike { A.means one.old ≡ B.means other.old → IfOk result (λ both. (of_one both.items ≡ of_other both.items) × (A.means one.new ≡ B.means other.new)) }
{
    replay_both_ok(heap, one, other, calls)
}
