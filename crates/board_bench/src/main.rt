// How long a board takes to tell where a label stands: both boards in one run, at few and many rows and points. What
// was answered goes to standard output, the times to standard error.
#![tactic(auto)]

use board::Board;
use board::points::Point;
use board_examples::throws::thrown;
use chained_board::chained_boards::ChainedBoard;
use grammar::limits::BYTE_STRANDS;
use grammar::strands::{BackRank, ForeRank, Strand};
use list_board::list_boards::ListBoard;
use std::io;
use std::time::Instant;

// How large a board is made.
#[derive(Clone, Copy)]
struct Load {
    rows: u16,
    points: u16,
}

const QUESTIONS: u32 = 400000;

// Widens a board to so many rows. Here and below, a call that is refused would show in what is printed.
fn widen_to<B: Board>(board: &mut B, rows: u16)
    requires { B.ok board.old }
    ensures { B.ok board.new }
{
    for row in BYTE_STRANDS..rows {
        let _ = board.widen(BackRank(row / 2), ForeRank(row / 3));
    }
}

// Points with labels from 0 on, spread over the rows.
fn put_points<B: Board>(board: &mut B, load: Load)
    requires { B.ok board.old }
    ensures { B.ok board.new }
{
    for label in 0..load.points {
        let _ = board.put(Point {
            row: BackRank(label % 256),
            column: ForeRank(label / 8),
            label: Strand(label),
        });
    }
}

// Asks for labels as if thrown, each question going by the answer before it, and gives the sum of the rows.
fn ask<B: Board>(board: &B, points: u16) -> u32
    requires { B.ok board.now }
{
    let mut sum: u32 = 0;
    let mut seed: u32 = 1;
    for _ in 0..QUESTIONS {
        let label = ((seed >> 8) % points.max(1) as u32) as u16;
        if let Some((row, _)) = board.locate(Strand(label)) {
            sum = sum.saturating_add(row.0 as u32);
            seed = thrown(seed.wrapping_add(row.0 as u32));
        }
    }
    sum
}

// Fills a board, asks, and tells the time for one question.
fn measure<B: Board>(rt: &HostRuntime, name: &str, board: &mut B, load: Load) -> io::Result<u32>
    requires { B.ok board.old }
{
    put_points(board, load);
    widen_to(board, load.rows);
    let start = Instant::now(rt)?;
    let sum = ask(board, load.points);
    let took = start.elapsed(rt)?;
    let each = took.as_nanos() / QUESTIONS as u128;
    eprintln!(rt;
        "{name} rows {} points {}: {each} ns for one question",
        load.rows, load.points
    )?;
    Ok(sum)
}

fn compare(rt: &HostRuntime, load: Load) -> io::Result<()> {
    let mut table = vec![in rt.alloc(); Point::default(); 1792]?;
    let listed = measure(rt, "list", &mut ListBoard::new(&mut table), load)?;
    let chained = measure(rt, "chained", &mut ChainedBoard::new(rt.alloc())?, load)?;
    println!(rt;
        "rows {} points {} list {listed} chained {chained}",
        load.rows, load.points
    )
}

fn main(rt: HostRuntime) -> io::Result<()> {
    for (rows, points) in [(256, 16), (2048, 16), (256, 1792), (2048, 1792)] {
        compare(&rt, Load { rows, points })?;
    }
    Ok(())
}
