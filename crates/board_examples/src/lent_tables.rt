// List boards over tables of 0, 2, 4 and 3,000 records, handed over by value and kept in an array.
ghost use Rattle.list_board.specs.Listed.{listed};
ghost use Rattle.list_board.specs.Listing.{Whole};

use super::points::point;
use board::Board;
use board::points::Point;
use grammar::refusals::Refusal;
use grammar::strands::{BackRank, ForeRank};
use list_board::list_boards::ListBoard;
use std::test::Fail;

// What the tables hold before a board is made over them.
fn old() -> Point {
    point(9, 9, 9)
}

#[test]
fn a_table_of_no_records_holds_no_point(rt: HostRuntime) {
    let mut table = [old(); 0];
    let mut board = ListBoard::new(&mut table);
    assert_eq!(rt; board.size().capacity, 0);
    assert_eq!(rt; board.put(point(0, 0, 0)), Err(Refusal::BoardFull));
    assert_eq!(rt; board.put(point(0, 0, 2048)), Err(Refusal::LabelTaken));
    assert_eq!(rt; board.widen(BackRank(0), ForeRank(256)), Ok(()));
    assert_eq!(rt; board.size().rows, 257);
}

#[test]
fn a_table_of_two_records_refuses_the_third_point(rt: HostRuntime) {
    let mut table = [old(); 2];
    let mut board = ListBoard::new(&mut table);
    assert_eq!(rt; board.put(point(7, 8, 300)), Ok(()));
    assert_eq!(rt; board.put(point(5, 6, 256)), Ok(()));
    assert_eq!(rt; board.put(point(0, 0, 257)), Err(Refusal::BoardFull));
    assert_eq!(rt; board.put(point(0, 0, 256)), Err(Refusal::LabelTaken));
    assert_eq!(rt; board.widen(BackRank(7), ForeRank(7)), Ok(()));
    assert_eq!(rt; board.size().points, 2);
    assert_eq!(rt; board.points()[0], point(8, 9, 300));
    assert_eq!(rt; board.points()[1], point(5, 6, 256));
}

// The points in the order put, at the front of the table, and nothing else written.
#[test]
fn the_lent_table_holds_the_points_afterwards(rt: HostRuntime) {
    let mut table = [old(); 4];
    let mut board = ListBoard::new(&mut table);
    assert_eq!(rt; board.put(point(1, 2, 3)), Ok(()));
    assert_eq!(rt; board.widen(BackRank(0), ForeRank(3)), Ok(()));
    assert_eq!(rt; board.put(point(0, 3, 1)), Ok(()));
    assert_eq!(rt; board.put(point(0, 3, 1)), Err(Refusal::LabelTaken));
    assert_eq!(rt; table[0], point(2, 2, 3));
    assert_eq!(rt; table[1], point(0, 3, 1));
    assert_eq!(rt; table[2], old());
    assert_eq!(rt; table[3], old());
}

#[test]
fn a_table_of_three_thousand_records_gives_a_capacity_of_2048(rt: HostRuntime) -> Result<(), Fail> {
    let mut table = vec![in rt.alloc(); old(); 3000]?;
    let board = ListBoard::new(&mut table);
    assert_eq!(rt; board.size().capacity, 2048);
    Ok(())
}

// Puts a point on a board that is handed over.
fn put_on(board: ListBoard<'_>, point: Point) -> Result<(), Refusal>
    requires { Whole (listed board) }
{
    let mut board = board;
    board.put(point)
}

#[test]
fn a_board_that_is_handed_over_takes_a_point(rt: HostRuntime) {
    let mut table = [old(); 2];
    assert_eq!(rt;
        put_on(ListBoard::new(&mut table), point(7, 8, 300)),
        Ok(())
    );
    assert_eq!(rt; table[0], point(7, 8, 300));
    assert_eq!(rt; table[1], old());
}

#[test]
fn boards_in_an_array_take_points(rt: HostRuntime) {
    let mut one = [old(); 1];
    let mut other = [old(); 1];
    let mut boards = [ListBoard::new(&mut one), ListBoard::new(&mut other)];
    assert_eq!(rt; boards[1].put(point(1, 2, 3)), Ok(()));
    assert_eq!(rt; boards[0].size().points, 0);
    assert_eq!(rt; boards[1].size().points, 1);
    assert_eq!(rt; boards[1].put(point(1, 2, 4)), Err(Refusal::BoardFull));
}
