// The sample file: whole, cut at every length, wrong in every field of its header, one byte too long, and there and back.
use book_file::decode::decode;
use book_file::encode::encode;
use book_file::records::LineRecord;
use book_file::round_trip::{decode_encoded, encode_decoded};
use console::listing::listing;
use grammar::refusals::Refusal;
use grammar::strands::{Pair, Strand};
use std::process::Abort;
use std::test::Fail;

// Three pairs, AB, ABAB and ABABA; line 7 is the last of them, strand 258, of 5 bytes.
const SAMPLE: &[u8; 36] =
    b"\x24\0\0\0\x03\0\x01\0\x10\0\0\0\x1C\0\0\0\x41\0\x42\0\0\x01\0\x01\x01\x01\x41\0\x07\0\x02\x01\x05\0\0\0";

const WHOLE: &str = "pairs 3\nlines 1\nline 7 strand 258 length 5\n";

const LINES: [LineRecord; 1] = [LineRecord {
    number: 7,
    strand: Strand(258),
    length: 5,
}];

const fn pair(left: u16, right: u16) -> Pair {
    Pair {
        left: Strand(left),
        right: Strand(right),
    }
}

fn sample_pairs() -> [Pair; 3] {
    [pair(65, 66), pair(256, 256), pair(257, 65)]
}

fn tells<R: Abort + AllocGlobal>(rt: &R, file: &[u8], expected: &str) -> Result<(), Fail> {
    let text = listing(rt.alloc(), file)?;
    assert_eq!(rt; text.as_str(), expected);
    Ok(())
}

#[test]
fn every_cut_is_short_at_its_byte_count(rt: HostRuntime) -> Result<(), Fail> {
    // each length is a case of its own
    for cut in 0..SAMPLE.len() {
        let expected = format!(in rt.alloc(); "no 2 16 {cut}\n")?;
        tells(&rt, &SAMPLE[..cut], expected.as_str())?;
    }
    tells(&rt, SAMPLE, WHOLE)
}

// Two bytes of the sample replaced, from an offset on, and what is told then.
#[test]
fn each_wrong_field_is_told_at_its_offset(rt: HostRuntime) -> Result<(), Fail> {
    let cases = [
        (4, [0x01, 0x07], "no 2 17 4\n"),
        (4, [0x00, 0x07], "no 2 17 12\n"),
        (6, [0x01, 0x04], "no 2 17 6\n"),
        (6, [0x00, 0x04], "no 2 17 0\n"),
        (8, [0x14, 0x00], "no 2 17 8\n"),
        (10, [0x01, 0x00], "no 2 17 8\n"),
        (12, [0x1D, 0x00], "no 2 17 12\n"),
        (14, [0x00, 0x01], "no 2 17 12\n"),
        (0, [0x25, 0x00], "no 2 17 0\n"),
        (2, [0x00, 0x80], "no 2 17 0\n"),
        (
            28,
            [0xFF, 0xFF],
            "pairs 3\nlines 1\nline 65535 strand 258 length 5\n",
        ),
        (
            34,
            [0xFF, 0xFF],
            "pairs 3\nlines 1\nline 7 strand 258 length 4294901765\n",
        ),
    ];
    for (at, bytes, told) in cases {
        assert!(rt; at < 35);
        let mut file = *SAMPLE;
        file[at..at + 2].copy_from_slice(&bytes);
        tells(&rt, &file, told)?;
    }
    Ok(())
}

#[test]
fn one_byte_more_is_told_at_the_size(rt: HostRuntime) -> Result<(), Fail> {
    let mut file = Vec::from_slice(rt.alloc(), SAMPLE)?;
    file.push(0)?;
    tells(&rt, &file, "no 2 17 36\n")
}

#[test]
fn the_sample_is_spelled_by_its_content(rt: HostRuntime) -> Result<(), Fail> {
    let content = decode(rt.alloc(), SAMPLE)?;
    assert_eq!(rt; content.pairs.as_slice(), sample_pairs().as_slice());
    assert_eq!(rt; content.lines.as_slice(), LINES.as_slice());
    Ok(())
}

// The file stands at the buffer's beginning and the rest stays; a buffer one byte too small stays whole.
#[test]
fn encoding_writes_the_file_and_nothing_else(rt: HostRuntime) {
    let pairs = sample_pairs();
    let mut buffer = [0x2Eu8; 40];
    assert_eq!(rt; encode(&pairs, &LINES, &mut buffer), Ok(36));
    assert_eq!(rt; &buffer[0..36], SAMPLE.as_slice());
    assert_eq!(rt; &buffer[36..40], [0x2Eu8; 4].as_slice());
    let mut small = [0x2Eu8; 35];
    assert_eq!(rt; encode(&pairs, &LINES, &mut small), Err(Refusal::TooSmall));
    assert_eq!(rt; small.as_slice(), [0x2Eu8; 35].as_slice());
}

#[test]
fn there_and_back(rt: HostRuntime) -> Result<(), Fail> {
    let heap = rt.alloc();
    let pairs = sample_pairs();
    let mut buffer = [0x2Eu8; 36];
    let content = decode_encoded(heap, &pairs, &LINES, &mut buffer)?;
    assert_eq!(rt; content.pairs.as_slice(), pairs.as_slice());
    let mut copy = [0x2Eu8; 36];
    assert_eq!(rt; encode_decoded(heap, SAMPLE, &mut copy)?, 36);
    assert_eq!(rt; copy.as_slice(), SAMPLE.as_slice());
    Ok(())
}

// As many pairs and lines as there can be, and one more of each.
#[test]
fn the_largest_file_is_accepted(rt: HostRuntime) -> Result<(), Fail> {
    let heap = rt.alloc();
    let pairs = vec![in heap; pair(65535, 256); 1793]?;
    let lines = vec![in heap; LineRecord {
        number: 7,
        strand: Strand(0),
        length: 65536
    }; 1025]?;
    let mut buffer = vec![in heap; 0u8; 15376]?;
    let most_pairs = &pairs[..1792];
    let most_lines = &lines[..1024];
    assert_eq!(rt;
        encode(&pairs, most_lines, &mut buffer),
        Err(Refusal::BadHeader { place: 4 })
    );
    assert_eq!(rt;
        encode(most_pairs, &lines, &mut buffer),
        Err(Refusal::BadHeader { place: 6 })
    );
    assert_eq!(rt; encode(most_pairs, most_lines, &mut buffer), Ok(15376));
    let content = decode(heap, &buffer)?;
    assert_eq!(rt; content.pairs.as_slice(), most_pairs);
    assert_eq!(rt; content.lines.as_slice(), most_lines);
    let text = listing(heap, &buffer)?;
    assert_eq!(rt; text.len(), 22 + 1024 * 29);
    Ok(())
}
