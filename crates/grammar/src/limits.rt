// The limits of a book, of a pattern and of a book file.
ghost use Rattle.std.specs.Prelude.{◌≡◌, ◌+◌};
ghost use Rattle.grammar.specs.Limits.{every_limit, byte_strand_count, max_pairs, max_strands};

// Strands 0 to 255 stand for one byte each.
pub const BYTE_STRANDS: u16 = 256;

// A book has at most this many strands, byte strands included.
pub const MAX_STRANDS: u16 = 2048;

// A book, and a book file, has at most this many pairs: what the byte strands leave.
pub const MAX_PAIRS: u16 = 1792;

// No tape is longer, in bytes.
pub const MAX_TAPE: u32 = 65536;

// A pattern has 1 to this many bytes.
pub const MAX_PATTERN: usize = 64;

// A book file has at most this many lines.
pub const MAX_LINES: u16 = 1024;

// No book file has more bytes: the header, and as many pairs and lines as there can be.
pub const MAX_FILE: usize = 15376;

// All limits at once.
#[derive(Clone, Copy, PartialEq, Eq, Debug)]
pub struct Limits {
    pub byte_strands: u16,
    pub strands: u16,
    pub pairs: u16,
    pub tape: u32,
    pub pattern: usize,
    pub lines: u16,
    pub file: usize,
}

// The constants, held to the definitions that contracts cite.
pub fn all_limits() -> Limits
    ensures values { result ≡ every_limit }
    ensures agree { max_strands ≡ byte_strand_count + max_pairs }
{
    Limits {
        byte_strands: BYTE_STRANDS,
        strands: MAX_STRANDS,
        pairs: MAX_PAIRS,
        tape: MAX_TAPE,
        pattern: MAX_PATTERN,
        lines: MAX_LINES,
        file: MAX_FILE,
    }
}
