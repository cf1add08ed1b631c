// The same list of calls on a list board and on a chained board of the same capacity.
use super::points::point;
use super::side_by_side::side_by_side;
use super::throws::thrown;
use board::calls::{Answer, Call, replay_both_ok};
use board::points::Point;
use board::rectangles::Rectangle;
use grammar::refusals::Refusal;
use grammar::strands::{BackRank, ForeRank, Strand};
use list_board::list_boards::ListBoard;
use std::process::Abort;
use std::test::Fail;

// A number below 320, most of them on a board of 256 rows and more.
fn rank(seed: u32) -> u16 {
    ((seed >> 9) % 320) as u16
}

// A label below 700, and now and then one at the limit or past it.
fn label(seed: u32) -> Strand {
    match (seed >> 20) % 64 {
        0 => Strand(2047),
        1 => Strand(2048),
        _ => Strand(((seed >> 12) % 700) as u16),
    }
}

// A call of a kind that a made-up number throws; every second one is a put.
fn thrown_call(seed: u32) -> Call {
    let row = BackRank(rank(seed));
    let column = ForeRank(rank(thrown(seed)));
    match (seed >> 16) % 8 {
        0 => Call::AskSize,
        1 => Call::Widen { row, column },
        2 => Call::Locate { label: label(seed) },
        3 => Call::First {
            within: Rectangle {
                top: BackRank(row.0 / 2),
                bottom: row,
                left: ForeRank(column.0 / 2),
                right: column,
            },
            floor: label(thrown(seed)),
        },
        _ => Call::Put(Point {
            row,
            column,
            label: label(thrown(seed)),
        }),
    }
}

// How often each kind of answer was given, and the sums of what was told.
#[derive(Clone, Copy, PartialEq, Default, Debug)]
struct Totals {
    accepted: u32,
    off_board: u32,
    taken: u32,
    absent: u32,
    none: u32,
    rows: u32,
    columns: u32,
    labels: u32,
}

fn settled(totals: &mut Totals, answer: Result<(), Refusal>) {
    match answer {
        Ok(()) => totals.accepted = totals.accepted.saturating_add(1),
        Err(Refusal::OffBoard) => totals.off_board = totals.off_board.saturating_add(1),
        Err(Refusal::LabelTaken) => totals.taken = totals.taken.saturating_add(1),
        Err(_) => {}
    }
}

fn told(totals: &mut Totals, answer: Answer) {
    match answer {
        Answer::Counts(_) => {}
        Answer::Settled(answer) => settled(totals, answer),
        Answer::Place(Some((row, column))) => {
            totals.rows = totals.rows.saturating_add(row.0 as u32);
            totals.columns = totals.columns.saturating_add(column.0 as u32);
        }
        Answer::Place(None) => totals.absent = totals.absent.saturating_add(1),
        Answer::Label(Some(label)) => totals.labels = totals.labels.saturating_add(label.0 as u32),
        Answer::Label(None) => totals.none = totals.none.saturating_add(1),
    }
}

// Every call is answered alike; the totals were worked out by a program that keeps points in a dictionary.
#[test]
fn nine_hundred_calls_are_answered_alike(rt: HostRuntime) -> Result<(), Fail> {
    let mut calls = Vec::new(rt.alloc());
    let mut seed = 7;
    for _ in 0..900 {
        seed = thrown(seed);
        calls.push(thrown_call(seed))?;
    }
    let answers = side_by_side(rt.alloc(), calls.as_slice())?;
    assert_eq!(rt; answers.len(), 900);
    let mut totals = Totals::default();
    for (one, other) in &answers {
        assert_eq!(rt; *one, *other);
        told(&mut totals, *other);
    }
    let right = Totals {
        accepted: 392,
        off_board: 93,
        taken: 89,
        absent: 59,
        none: 32,
        rows: 7789,
        columns: 7246,
        labels: 28278,
    };
    assert_eq!(rt; totals, right);
    Ok(())
}

// Both boards settle each call as `right` says of its index. These calls are too many to be written out as rows.
fn settle_as<F: Fn(usize) -> Result<(), Refusal>>(
    rt: &impl Abort,
    answers: &[(Answer, Answer)],
    right: F,
)
    requires { F.IsAlwaysCallable right }
{
    for (i, (one, other)) in answers.iter().enumerate() {
        let answer = Answer::Settled(right(i));
        assert_eq!(rt; *one, answer);
        assert_eq!(rt; *other, answer);
    }
}

// As many points as the capacity allows, and one more.
#[test]
fn full_boards_refuse_alike(rt: HostRuntime) -> Result<(), Fail> {
    let mut calls = Vec::new(rt.alloc());
    for i in 0..1792u16 {
        calls.push(Call::Put(point(i % 256, i / 7, i)))?;
    }
    calls.push(Call::Put(point(0, 0, 1792)))?;
    calls.push(Call::Put(point(0, 0, 5)))?;
    calls.push(Call::Put(point(256, 0, 5)))?;
    let answers = side_by_side(rt.alloc(), calls.as_slice())?;
    assert_eq!(rt; answers.len(), 1795);
    settle_as(&rt, &answers, |i| match i {
        1792 => Err(Refusal::BoardFull),
        1793 => Err(Refusal::LabelTaken),
        1794 => Err(Refusal::OffBoard),
        _ => Ok(()),
    });
    Ok(())
}

// As many rows and columns as there may be, and one more.
#[test]
fn boards_at_the_limit_refuse_alike(rt: HostRuntime) -> Result<(), Fail> {
    let mut calls = Vec::new(rt.alloc());
    for i in 0..1792u16 {
        calls.push(Call::Widen {
            row: BackRank(i),
            column: ForeRank(256),
        })?;
    }
    calls.push(Call::Widen {
        row: BackRank(0),
        column: ForeRank(0),
    })?;
    calls.push(Call::Widen {
        row: BackRank(4000),
        column: ForeRank(0),
    })?;
    let answers = side_by_side(rt.alloc(), calls.as_slice())?;
    assert_eq!(rt; answers.len(), 1794);
    settle_as(&rt, &answers, |i| {
        if i < 1792 {
            Ok(())
        } else {
            Err(Refusal::BoardAtLimit)
        }
    });
    Ok(())
}

// A point for every label, over tables of 3,000 and of 2,048 records.
#[test]
fn all_labels_fit_a_list_board(rt: HostRuntime) -> Result<(), Fail> {
    let mut calls = Vec::new(rt.alloc());
    for i in 0..2048u16 {
        calls.push(Call::Put(point(i % 256, i / 8, i)))?;
    }
    calls.push(Call::Put(point(0, 0, 5)))?;
    let mut long = vec![in rt.alloc(); Point::default(); 3000]?;
    let mut just = vec![in rt.alloc(); Point::default(); 2048]?;
    let mut one = ListBoard::new(&mut long);
    let mut other = ListBoard::new(&mut just);
    let answers = replay_both_ok(rt.alloc(), &mut one, &mut other, calls.as_slice())?;
    assert_eq!(rt; answers.len(), 2049);
    settle_as(&rt, &answers, |i| {
        if i < 2048 {
            Ok(())
        } else {
            Err(Refusal::LabelTaken)
        }
    });
    Ok(())
}
