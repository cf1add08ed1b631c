// Both boards, made with the same capacity, through the same list of calls.
ghost use Rattle.std.specs.Prelude.{IfOk};
ghost use Rattle.board.specs.Serving.{of_one, of_other};
ghost use Rattle.board_examples.specs.Alike.{AnswerAlike};

use board::calls::{Answer, Call, replay_both_ok};
use board::points::Point;
use chained_board::chained_boards::ChainedBoard;
use grammar::limits::MAX_PAIRS;
use list_board::list_boards::ListBoard;
use std::alloc::{AllocError, Global};

// What a list board over 1,792 records and a chained board answer, call by call.
pub fn side_by_side(heap: Global, calls: &[Call]) -> Result<Vec<(Answer, Answer)>, AllocError>
    ensures { IfOk result (λ both. AnswerAlike calls.now (of_one both.items) (of_other both.items)) }
{
    let mut table = vec![in heap; Point::default(); MAX_PAIRS as usize]?;
    let mut list = ListBoard::new(&mut table);
    let mut chained = ChainedBoard::new(heap)?;
    replay_both_ok(heap, &mut list, &mut chained, calls)
}
