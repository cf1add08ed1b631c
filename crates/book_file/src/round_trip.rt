// Decoding and encoding undo each other: the two calls made one after the other, with what must come back.
ghost use Rattle.std.specs.Prelude.{MatchResult};
ghost use Rattle.book_file.specs.RoundTrips.{SameContent, NoContent, SameFile, NoFile};

use super::decode::{Content, Fault, decode};
use super::encode::encode;
use super::records::LineRecord;
use grammar::strands::Pair;
use std::alloc::Global;

// Encodes the pairs and lines, two slices as `encode` takes them, to the buffer and decodes them from there: the same pairs
// and lines come back.
pub fn decode_encoded(
    heap: Global,
    pairs: &[Pair],
    lines: &[LineRecord],
    buffer: &mut [u8],
) -> Result<Content, Fault>
    ensures { MatchResult result (SameContent pairs.now lines.now buffer.old buffer.new) (NoContent pairs.now lines.now buffer.old buffer.new) }
{
    let size = encode(pairs, lines, buffer)?;
    decode(heap, &buffer[..size])
}

// Decodes the bytes and encodes the content to the buffer: the same bytes come back.
pub fn encode_decoded(heap: Global, bytes: &[u8], buffer: &mut [u8]) -> Result<usize, Fault>
    ensures { MatchResult result (SameFile bytes.now buffer.old buffer.new) (NoFile bytes.now buffer.old buffer.new) }
{
    let content = decode(heap, bytes)?;
    Ok(encode(&content.pairs, &content.lines, buffer)?)
}
