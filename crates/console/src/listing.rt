// A book file told as text: what it holds, or why it is refused.
ghost use Rattle.std.specs.Prelude.{IfOk, Some, string_bytes};
ghost use Rattle.console.specs.Listings.{Listing, text_of_content, line_row, refusal_row};

use book_file::decode::{Content, Fault, decode};
use book_file::records::LineRecord;
use grammar::refusals::Refusal;
use std::alloc::{AllocError, Global};
use std::fmt;

// A refusal: its layer, its number, its place.
#[derive(Drop)]
struct RefusalRow(Refusal);

impl fmt::Display for RefusalRow {
    ghost output = { λ row. Some (refusal_row row.0) };

    fn fmt<W: fmt::Write>(&self, f: &mut fmt::Formatter<W>) -> fmt::Result {
        let refusal = self.0;
        writeln!(
            f,
            "no {} {} {}",
            refusal.layer().number(),
            refusal.number(),
            refusal.place()
        )
    }
}

// A line of the survey: its number, its strand, its length.
#[derive(Drop)]
struct LineRow<'a>(&'a LineRecord);

impl fmt::Display for LineRow<'_> {
    ghost output = { λ row. Some (line_row row.0.now) };

    fn fmt<W: fmt::Write>(&self, f: &mut fmt::Formatter<W>) -> fmt::Result {
        let line = self.0;
        writeln!(
            f,
            "line {} strand {} length {}",
            line.number, line.strand.0, line.length
        )
    }
}

// A content: how many pairs and lines, then each line.
#[derive(Drop)]
struct ContentText<'a>(&'a Content);

impl fmt::Display for ContentText<'_> {
    ghost output = { λ text. Some (text_of_content text.0.now.pairs.items text.0.now.lines.items) };

    fn fmt<W: fmt::Write>(&self, f: &mut fmt::Formatter<W>) -> fmt::Result {
        let content = self.0;
        writeln!(
            f,
            "pairs {}\nlines {}",
            content.pairs.len(),
            content.lines.len()
        )?;
        for line in &content.lines {
            write!(f, "{}", LineRow(line))?;
        }
        Ok(())
    }
}

// The text that is printed for the bytes of a file. Want of memory is the only other outcome.
pub fn listing(heap: Global, file: &[u8]) -> Result<String, AllocError>
    ensures { IfOk result (λ text. Listing file.now (string_bytes text)) }
{
    match decode(heap, file) {
        Ok(content) => ContentText(&content).to_string(heap),
        Err(Fault::Refused(refusal)) => RefusalRow(refusal).to_string(heap),
        Err(Fault::Memory(error)) => Err(error),
    }
}
