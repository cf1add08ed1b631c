// Boards whose types hold what their calls ask: behind a reference, in a struct, by a type parameter, by a `dyn`, and side
// by side.
ghost use Rattle.chained_board.specs.Boards.{Stays, meaning};

use super::points::point;
use board::Board;
use board::calls::{Answer, Call, replay_both};
use board::kept::{KeptBoard, PlainBoard};
use board::points::Point;
use board::rectangles::Rectangle;
use board::sizes::Size;
use chained_board::chained_boards::ChainedBoard;
use grammar::refusals::Refusal;
use grammar::strands::{BackRank, ForeRank, Strand};
use list_board::kept::KeptListBoard;
use std::alloc::{AllocError, Global};
use std::test::Fail;

// A board written by the calls that ask nothing, over a chained one.
#[derive(Drop)]
struct Relayed {
    to: ChainedBoard,
}

impl PlainBoard for Relayed {
    ghost means = { λ b. meaning b.to };

    ghost keeps = { λ b after. Stays b.to after.to };

    ghost proper = { λ b. b.to.sound.proper };

    fn size(&self) -> Size {
        self.to.size()
    }

    fn widen(&mut self, row: BackRank, column: ForeRank) -> Result<(), Refusal> {
        self.to.widen(row, column)
    }

    fn put(&mut self, point: Point) -> Result<(), Refusal> {
        self.to.put(point)
    }

    fn locate(&self, label: Strand) -> Option<(BackRank, ForeRank)> {
        self.to.locate(label)
    }

    fn first(&self, within: Rectangle, floor: Strand) -> Option<Strand> {
        self.to.first(within, floor)
    }
}

// Puts two points on a board that somebody else made; of the board it asks for nothing.
fn put_two<B: KeptBoard>(
    board: &mut B,
    one: Point,
    other: Point,
) -> (Result<(), Refusal>, Result<(), Refusal>) {
    (board.put(one), board.put(other))
}

// A survey's board, in a struct that says nothing of it.
#[derive(Drop)]
struct Survey<'a> {
    board: KeptListBoard<'a>,
}

impl Survey<'_> {
    fn put(&mut self, point: Point) -> Result<(), Refusal> {
        self.board.put(point)
    }
}

#[test]
fn a_kept_list_board_in_a_struct_takes_points(rt: HostRuntime) {
    let mut table = [Point::default(); 1];
    let mut survey = Survey {
        board: KeptListBoard::new(&mut table),
    };
    assert_eq!(rt; survey.put(point(1, 2, 3)), Ok(()));
    assert_eq!(rt; survey.put(point(1, 2, 4)), Err(Refusal::BoardFull));
    assert_eq!(rt; survey.board.size().points, 1);
}

// Puts a point on a list board behind a reference.
fn put_behind(board: &mut KeptListBoard<'_>, point: Point) -> Result<(), Refusal> {
    board.put(point)
}

// Puts a point on a board of whatever type.
fn put_on_any(board: &mut dyn KeptBoard, point: Point) -> Result<(), Refusal> {
    board.is_ok();
    board.put(point)
}

#[test]
fn kept_boards_of_any_type_take_points(rt: HostRuntime) -> Result<(), Fail> {
    let mut table = [Point::default(); 1];
    let mut list = KeptListBoard::new(&mut table);
    let mut chained = ChainedBoard::new(rt.alloc())?;
    assert_eq!(rt; put_on_any(&mut list, point(1, 2, 3)), Ok(()));
    assert_eq!(rt;
        put_on_any(&mut list, point(1, 2, 4)),
        Err(Refusal::BoardFull)
    );
    assert_eq!(rt; put_on_any(&mut chained, point(1, 2, 3)), Ok(()));
    assert_eq!(rt;
        put_on_any(&mut chained, point(1, 256, 4)),
        Err(Refusal::OffBoard)
    );
    assert_eq!(rt; chained.locate(Strand(3)), Some((BackRank(1), ForeRank(2))));
    Ok(())
}

#[test]
fn kept_boards_take_points_under_a_bound(rt: HostRuntime) -> Result<(), Fail> {
    let mut table = [Point::default(); 1];
    let mut list = KeptListBoard::new(&mut table);
    assert_eq!(rt;
        put_two(&mut list, point(1, 2, 3), point(4, 5, 6)),
        (Ok(()), Err(Refusal::BoardFull))
    );
    let mut chained = ChainedBoard::new(rt.alloc())?;
    assert_eq!(rt;
        put_two(&mut chained, point(1, 2, 3), point(4, 5, 3)),
        (Ok(()), Err(Refusal::LabelTaken))
    );
    let mut relayed = Relayed { to: chained };
    assert_eq!(rt;
        put_two(&mut relayed, point(1, 2, 4), point(256, 5, 6)),
        (Ok(()), Err(Refusal::OffBoard))
    );
    Ok(())
}

#[test]
fn a_kept_list_board_behind_a_reference_takes_points(rt: HostRuntime) {
    let mut table = [point(9, 9, 9); 3];
    let mut board = KeptListBoard::new(&mut table);
    assert_eq!(rt; put_behind(&mut board, point(7, 8, 300)), Ok(()));
    assert_eq!(rt; board.widen(BackRank(7), ForeRank(9)), Ok(()));
    assert_eq!(rt; put_behind(&mut board, point(7, 9, 256)), Ok(()));
    assert_eq!(rt;
        put_behind(&mut board, point(0, 0, 256)),
        Err(Refusal::LabelTaken)
    );
    assert_eq!(rt;
        board.size(),
        Size {
            rows: 257,
            columns: 257,
            points: 2,
            capacity: 3,
        }
    );
    assert_eq!(rt; board.points().len(), 2);
    assert_eq!(rt; board.points()[0], point(8, 8, 300));
    assert_eq!(rt; board.locate(Strand(256)), Some((BackRank(7), ForeRank(9))));
    assert_eq!(rt; board.locate(Strand(257)), None);
    let all = Rectangle {
        top: BackRank(0),
        bottom: BackRank(257),
        left: ForeRank(0),
        right: ForeRank(257),
    };
    assert_eq!(rt; board.first(all, Strand(0)), Some(Strand(256)));
    assert_eq!(rt; board.first(all, Strand(257)), Some(Strand(300)));
    assert_eq!(rt; table[1], point(7, 9, 256));
    assert_eq!(rt; table[2], point(9, 9, 9));
}

// What a list board and a board written by the calls that ask nothing answer to the same calls.
fn asked_of_both(
    heap: Global,
    list: &mut KeptListBoard<'_>,
    relayed: &mut Relayed,
    calls: &[Call],
) -> Result<Vec<(Answer, Answer)>, AllocError> {
    replay_both(heap, list, relayed, calls)
}

#[test]
fn kept_boards_answer_side_by_side(rt: HostRuntime) -> Result<(), Fail> {
    let all = Rectangle {
        top: BackRank(0),
        bottom: BackRank(257),
        left: ForeRank(0),
        right: ForeRank(257),
    };
    let calls = [
        Call::Put(point(1, 2, 300)),
        Call::Put(point(1, 2, 300)),
        Call::Widen {
            row: BackRank(1),
            column: ForeRank(3),
        },
        Call::Locate { label: Strand(300) },
        Call::AskSize,
        Call::First {
            within: all,
            floor: Strand(300),
        },
        Call::First {
            within: all,
            floor: Strand(301),
        },
    ];
    let expected = [
        Answer::Settled(Ok(())),
        Answer::Settled(Err(Refusal::LabelTaken)),
        Answer::Settled(Ok(())),
        Answer::Place(Some((BackRank(2), ForeRank(2)))),
        Answer::Counts(Size {
            rows: 257,
            columns: 257,
            points: 1,
            capacity: 1792,
        }),
        Answer::Label(Some(Strand(300))),
        Answer::Label(None),
    ];
    let mut table = [Point::default(); 1792];
    let mut list = KeptListBoard::new(&mut table);
    let mut relayed = Relayed {
        to: ChainedBoard::new(rt.alloc())?,
    };
    let answers = asked_of_both(rt.alloc(), &mut list, &mut relayed, &calls)?;
    assert_eq!(rt; answers.len(), 7);
    for (both, answer) in answers.iter().zip(expected) {
        assert_eq!(rt; *both, (answer, answer));
    }
    assert_eq!(rt; table[0], point(2, 2, 300));
    Ok(())
}
