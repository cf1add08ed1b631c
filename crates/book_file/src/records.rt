// The records of a book file: each is taken from the front of its bytes with the rest handed on, and written back.
ghost use Rattle.std.specs.Prelude.{◌≡◌, ℕ, ◌<◌, ◌≤◌, List, ◌++◌, length, Some, MatchOption, MatchResult};
ghost use Rattle.grammar.specs.Limits.{max_lines, max_pairs};
ghost use Rattle.grammar.specs.Refusals.{first_of};
ghost use Rattle.book_file.specs.Layout.{header_of, header_bytes, limit_faults, pair_bytes, line_bytes};
ghost use Rattle.book_file.specs.Writing.{Room, Put};
ghost use Rattle.std.proofs.Common.{rules};

use super::writer::Writer;
use grammar::limits::{MAX_LINES, MAX_PAIRS};
use grammar::refusals::Refusal;
use grammar::strands::{Pair, Strand};

// A record of a fixed width.
pub(crate) trait Record: Copy {
    ghost width: { ℕ };

    // the bytes that stand for the record in a file
    ghost bytes: { Self → List ℕ };

    // The first record of the bytes, and the rest; none where they are too few. Each record writes this as one slice
    // pattern, which shows its layout.
    fn parse(from: &[u8]) -> Option<(Self, &[u8])>
        ensures { MatchOption result (length from.now < width) (λ found. from.now ≡ bytes found.0 ++ found.1.now) };

    // Writes the record's bytes.
    fn write(self, out: &mut Writer<'_>)
        requires { Room out.old width }
        ensures { Put out.old out.new (bytes self) };

    ghost fixed: { (record' : Self) → length (bytes record') ≡ width };

    ghost some: { 0 < width };
}

// What a file says of itself, in the order of its fields.
#[derive(Clone, Copy, PartialEq, Eq, Debug)]
pub(crate) struct Header {
    pub size: u32,
    pub pairs: u16,
    pub lines: u16,
    pub pair_table: u32,
    pub line_table: u32,
}

impl Header {
    // The header of the file of so many pairs and lines: two counts, in the order of the fields, as in the functions below.
    pub fn of_file(pairs: u16, lines: u16) -> Header
        ensures { result ≡ header_of pairs lines }
    {
        let line_table = 16 + 4 * pairs as u32;
        Header {
            size: line_table + 8 * lines as u32,
            pairs,
            lines,
            pair_table: 16,
            line_table,
        }
    }
}

// Whether there are no more pairs and lines than there may be, or which field of a header would be wrong.
pub(crate) fn within_limits(pairs: usize, lines: usize) -> Result<(), Refusal>
    ensures { MatchResult result (λ _. (pairs ≤ max_pairs) × (lines ≤ max_lines)) (λ e. first_of (limit_faults pairs lines) ≡ Some e) }
{
    if pairs > MAX_PAIRS as usize {
        return Err(Refusal::BadHeader { place: 4 });
    }
    if lines > MAX_LINES as usize {
        return Err(Refusal::BadHeader { place: 6 });
    }
    Ok(())
}

impl Record for Header {
    ghost width = { 16 };

    ghost bytes = { header_bytes };

    ghost fixed = { Prim.search rules };

    ghost some = { Prim.search rules };

    fn parse(from: &[u8]) -> Option<(Header, &[u8])> {
        let [
            s0,
            s1,
            s2,
            s3,
            p0,
            p1,
            l0,
            l1,
            a0,
            a1,
            a2,
            a3,
            b0,
            b1,
            b2,
            b3,
            rest @ ..,
        ] = from
        else {
            return None;
        };
        let header = Header {
            size: u32::from_le_bytes([*s0, *s1, *s2, *s3]),
            pairs: u16::from_le_bytes([*p0, *p1]),
            lines: u16::from_le_bytes([*l0, *l1]),
            pair_table: u32::from_le_bytes([*a0, *a1, *a2, *a3]),
            line_table: u32::from_le_bytes([*b0, *b1, *b2, *b3]),
        };
        Some((header, rest))
    }

    fn write(self, out: &mut Writer<'_>) {
        out.put(&self.size.to_le_bytes());
        out.put(&self.pairs.to_le_bytes());
        out.put(&self.lines.to_le_bytes());
        out.put(&self.pair_table.to_le_bytes());
        out.put(&self.line_table.to_le_bytes());
    }
}

impl Record for Pair {
    ghost width = { 4 };

    ghost bytes = { pair_bytes };

    ghost fixed = { Prim.search rules };

    ghost some = { Prim.search rules };

    fn parse(from: &[u8]) -> Option<(Pair, &[u8])> {
        let [l0, l1, r0, r1, rest @ ..] = from else {
            return None;
        };
        let pair = Pair {
            left: Strand(u16::from_le_bytes([*l0, *l1])),
            right: Strand(u16::from_le_bytes([*r0, *r1])),
        };
        Some((pair, rest))
    }

    fn write(self, out: &mut Writer<'_>) {
        out.put(&self.left.0.to_le_bytes());
        out.put(&self.right.0.to_le_bytes());
    }
}

// A line of the survey: its number, the strand that it is and the length of that strand's tape.
#[derive(Clone, Copy, PartialEq, Eq, Debug)]
pub struct LineRecord {
    pub number: u16,
    pub strand: Strand,
    pub length: u32,
}

impl Record for LineRecord {
    ghost width = { 8 };

    ghost bytes = { line_bytes };

    ghost fixed = { Prim.search rules };

    ghost some = { Prim.search rules };

    fn parse(from: &[u8]) -> Option<(LineRecord, &[u8])> {
        let [n0, n1, s0, s1, t0, t1, t2, t3, rest @ ..] = from else {
            return None;
        };
        let line = LineRecord {
            number: u16::from_le_bytes([*n0, *n1]),
            strand: Strand(u16::from_le_bytes([*s0, *s1])),
            length: u32::from_le_bytes([*t0, *t1, *t2, *t3]),
        };
        Some((line, rest))
    }

    fn write(self, out: &mut Writer<'_>) {
        out.put(&self.number.to_le_bytes());
        out.put(&self.strand.0.to_le_bytes());
        out.put(&self.length.to_le_bytes());
    }
}
