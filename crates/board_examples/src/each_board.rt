// Each call at the edges of its rules: lists of calls with their answers, held to both boards.
use super::points::point;
use super::side_by_side::side_by_side;
use board::calls::{Answer, Call};
use board::rectangles::Rectangle;
use board::sizes::Size;
use grammar::refusals::Refusal;
use grammar::strands::{BackRank, ForeRank, Strand};
use std::process::Abort;
use std::test::Fail;

// A call and what it has to answer.
#[derive(Clone, Copy)]
struct Row {
    call: Call,
    answer: Answer,
}

fn put(row: u16, column: u16, label: u16, answer: Result<(), Refusal>) -> Row {
    Row {
        call: Call::Put(point(row, column, label)),
        answer: Answer::Settled(answer),
    }
}

fn widen(row: u16, column: u16, answer: Result<(), Refusal>) -> Row {
    Row {
        call: Call::Widen {
            row: BackRank(row),
            column: ForeRank(column),
        },
        answer: Answer::Settled(answer),
    }
}

fn located(label: u16, place: Option<(u16, u16)>) -> Row {
    Row {
        call: Call::Locate {
            label: Strand(label),
        },
        answer: Answer::Place(place.map(|(row, column)| (BackRank(row), ForeRank(column)))),
    }
}

fn size(rows: u16, columns: u16, points: u16) -> Row {
    Row {
        call: Call::AskSize,
        answer: Answer::Counts(Size {
            rows,
            columns,
            points,
            capacity: 1792,
        }),
    }
}

fn first(rows: (u16, u16), columns: (u16, u16), floor: u16, answer: Option<Strand>) -> Row {
    let (top, bottom) = rows;
    let (left, right) = columns;
    let within = Rectangle {
        top: BackRank(top),
        bottom: BackRank(bottom),
        left: ForeRank(left),
        right: ForeRank(right),
    };
    Row {
        call: Call::First {
            within,
            floor: Strand(floor),
        },
        answer: Answer::Label(answer),
    }
}

// Both boards answer each call as its row says.
fn hold<R: Abort + AllocGlobal>(rt: &R, rows: &[Row]) -> Result<(), Fail> {
    // the calls alone, as both boards take them
    let calls: Vec<Call> = rows.iter().map(|row| row.call).collect(rt.alloc())?;
    let answers = side_by_side(rt.alloc(), &calls)?;
    assert_eq!(rt; answers.len(), rows.len());
    for (row, (one, other)) in rows.iter().zip(&answers) {
        assert_eq!(rt; *one, row.answer);
        assert_eq!(rt; *other, row.answer);
    }
    Ok(())
}

#[test]
fn labels_go_up_to_2047(rt: HostRuntime) -> Result<(), Fail> {
    let rows = [
        size(256, 256, 0),
        put(0, 255, 0, Ok(())),
        put(255, 0, 2047, Ok(())),
        put(1, 1, 2048, Err(Refusal::LabelTaken)),
        put(1, 1, 0, Err(Refusal::LabelTaken)),
        put(256, 0, 1, Err(Refusal::OffBoard)),
        put(0, 256, 1, Err(Refusal::OffBoard)),
        put(256, 256, 2048, Err(Refusal::OffBoard)),
        located(0, Some((0, 255))),
        located(2047, Some((255, 0))),
        located(2048, None),
        located(1, None),
        size(256, 256, 2),
    ];
    hold(&rt, &rows)
}

// At 0, in the middle, at the end and past it.
#[test]
fn widening_moves_what_is_at_or_past_the_place(rt: HostRuntime) -> Result<(), Fail> {
    let rows = [
        put(100, 200, 7, Ok(())),
        widen(0, 0, Ok(())),
        located(7, Some((101, 201))),
        widen(101, 202, Ok(())),
        located(7, Some((102, 201))),
        widen(103, 201, Ok(())),
        located(7, Some((102, 202))),
        widen(259, 259, Ok(())),
        located(7, Some((102, 202))),
        widen(261, 0, Err(Refusal::OffBoard)),
        widen(0, 261, Err(Refusal::OffBoard)),
        size(260, 260, 1),
    ];
    hold(&rt, &rows)
}

// Whatever was put first; floors and far sides as the rules say.
#[test]
fn first_is_the_smallest_label_inside(rt: HostRuntime) -> Result<(), Fail> {
    let rows = [
        first((0, 256), (0, 256), 0, None),
        put(10, 20, 300, Ok(())),
        put(10, 21, 290, Ok(())),
        put(11, 20, 280, Ok(())),
        first((10, 12), (20, 22), 0, Some(Strand(280))),
        first((10, 11), (20, 22), 0, Some(Strand(290))),
        first((10, 11), (20, 21), 0, Some(Strand(300))),
        first((10, 12), (20, 22), 280, Some(Strand(280))),
        first((10, 12), (20, 22), 281, Some(Strand(290))),
        first((0, 9000), (0, 9000), 291, Some(Strand(300))),
        first((0, 9000), (0, 9000), 301, None),
        first((12, 10), (20, 22), 0, None),
        first((10, 12), (22, 256), 0, None),
    ];
    hold(&rt, &rows)
}
