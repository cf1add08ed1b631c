// A book file put together in a buffer that the caller lends.
ghost use Rattle.std.specs.Prelude.{◌≡◌, ◌*◌, length, Some, None, MatchResult};
ghost use Rattle.std.specs.List.{flat_map};
ghost use Rattle.book_file.specs.Contents.{Encoded, NotEncoded};
ghost use Rattle.book_file.specs.Layout.{encode_fault, header_of};
ghost use Rattle.book_file.specs.Writing.{Room, Put};

use super::records::{Header, LineRecord, Record, within_limits};
use super::writer::Writer;
use grammar::refusals::Refusal;
use grammar::strands::Pair;

// The header of a file of so many pairs and lines, where a buffer of so many bytes holds that file.
fn header_for(pairs: usize, lines: usize, room: usize) -> Result<Header, Refusal>
    ensures { MatchResult result (λ h. (encode_fault pairs lines room ≡ None) × (h ≡ header_of pairs lines)) (λ e. encode_fault pairs lines room ≡ Some e) }
{
    within_limits(pairs, lines)?;
    let header = Header::of_file(pairs as u16, lines as u16);
    if room < header.size as usize {
        return Err(Refusal::TooSmall);
    }
    Ok(header)
}

// Writes the records one behind the other.
fn write_all<R: Record>(records: &[R], out: &mut Writer<'_>)
    requires { Room out.old (R.width * length records.now) }
    ensures { Put out.old out.new (flat_map R.bytes records.now) }
{
    for record in records {
        record.write(out);
    }
}

// Writes the file of the pairs and lines at the buffer's beginning, and answers its size. The two are slices, so that no
// caller needs vectors; a struct would only wrap them.
pub fn encode(pairs: &[Pair], lines: &[LineRecord], buffer: &mut [u8]) -> Result<usize, Refusal>
    ensures { MatchResult result (Encoded pairs.now lines.now buffer.old buffer.new) (NotEncoded pairs.now lines.now buffer.old buffer.new) }
{
    let header = header_for(pairs.len(), lines.len(), buffer.len())?;
    let mut out = Writer { buffer, place: 0 };
    header.write(&mut out);
    write_all(pairs, &mut out);
    write_all(lines, &mut out);
    Ok(out.place)
}
