// A book file taken apart: its header checked, then its records.
ghost use Rattle.std.specs.Prelude.{◌≡◌, ℕ, ◌/◌, ◌<◌, List, ◌++◌, length, IfOk, Some, None, MatchResult};
ghost use Rattle.std.specs.List.{flat_map};
ghost use Rattle.grammar.specs.Refusals.{first_of};
ghost use Rattle.book_file.specs.Contents.{Opened, Decoded, Due};
ghost use Rattle.book_file.specs.Layout.{header_faults, layout_fault};
ghost use Rattle.book_file.specs.declared.decode.Fault.TheVariants.{Refused as refused, Memory as memory};

use super::records::{Header, LineRecord, Record, within_limits};
use grammar::refusals::Refusal;
use grammar::strands::Pair;
use std::alloc::{AllocError, Global};

// The two tables of a file whose header is sound, still as bytes.
#[derive(Clone, Copy)]
pub struct Tables<'a> {
    pub pairs: &'a [u8],
    pub lines: &'a [u8],
}

// What a file holds: the pairs in the order of joining, and the lines.
#[derive(Drop)]
pub struct Content {
    pub pairs: Vec<Pair>,
    pub lines: Vec<LineRecord>,
}

// Why no content was made: a refusal, or want of memory.
#[derive(Clone, Copy, PartialEq, Eq, Debug)]
pub enum Fault {
    Refused(Refusal),
    Memory(AllocError),
}

// Both by hand, since a clause learns from `from_gives` which fault a `?` makes.
impl From<Refusal> for Fault {
    ghost from_gives = { λ e r. r ≡ refused e };

    fn from(refusal: Refusal) -> Fault {
        Fault::Refused(refusal)
    }
}

impl From<AllocError> for Fault {
    ghost from_gives = { λ e r. r ≡ memory e };

    fn from(error: AllocError) -> Fault {
        Fault::Memory(error)
    }
}

// The checks on the header of a file of so many bytes, in their order.
fn check(header: &Header, len: usize) -> Result<(), Refusal>
    ensures { MatchResult result (λ _. first_of (header_faults header.now len) ≡ None) (λ e. first_of (header_faults header.now len) ≡ Some e) }
{
    within_limits(header.pairs as usize, header.lines as usize)?;
    let sound = Header::of_file(header.pairs, header.lines);
    if header.pair_table != sound.pair_table {
        return Err(Refusal::BadHeader { place: 8 });
    }
    if header.line_table != sound.line_table {
        return Err(Refusal::BadHeader { place: 12 });
    }
    if header.size != sound.size {
        return Err(Refusal::BadHeader { place: 0 });
    }
    let size = header.size as usize;
    if len < size {
        return Err(Refusal::FileShort { place: len });
    }
    if len > size {
        return Err(Refusal::BadHeader { place: size });
    }
    Ok(())
}

// The tables of a book file, or why the bytes are none.
pub fn open(bytes: &[u8]) -> Result<Tables<'_>, Refusal>
    ensures { MatchResult result (λ t. Opened bytes.now (length t.pairs.now / 4) (length t.lines.now / 8) t.pairs.now t.lines.now) (λ e. layout_fault bytes.now ≡ Some e) }
{
    let Some((header, rest)) = Header::parse(bytes) else {
        return Err(Refusal::FileShort { place: bytes.len() });
    };
    check(&header, bytes.len())?;
    let (pairs, lines) = rest.split_at(4 * header.pairs as usize);
    Ok(Tables { pairs, lines })
}

// The records of a table, in order, up to what is too short for one more.
fn records<R: Record>(heap: Global, table: &[u8]) -> Result<Vec<R>, AllocError>
    ensures { IfOk result (λ v. ((rest : List ℕ) × (flat_map R.bytes v.items ++ rest ≡ table.now) × (length rest < R.width))) }
{
    let mut found = Vec::new(heap);
    let mut rest = table;
    while let Some((record, tail)) = R::parse(rest) {
        found.push(record)?;
        rest = tail;
    }
    Ok(found)
}

// The content whose file the bytes are, or why they are none.
pub fn decode(heap: Global, bytes: &[u8]) -> Result<Content, Fault>
    ensures { MatchResult result (Decoded bytes.now) (Due (layout_fault bytes.now)) }
{
    let tables = open(bytes)?;
    let pairs = records(heap, tables.pairs)?;
    let lines = records(heap, tables.lines)?;
    Ok(Content { pairs, lines })
}
