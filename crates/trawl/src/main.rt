// Tells what the book file `survey.book` in the current folder holds, or why it is refused.
#![tactic(auto)]

use console::listing::listing;
use grammar::limits::MAX_FILE;
use std::io::{Print, Read};
use std::{fs, io};

// The file's bytes, up to one more than a book file can have; a missing file counts as one of no bytes.
fn read_survey(rt: &HostRuntime, path: &str) -> io::Result<Vec<u8>> {
    let mut bytes = Vec::new(rt.alloc());
    match fs::open(rt, path) {
        Ok(file) => {
            file.take(MAX_FILE as u64 + 1).read_to_end(&mut bytes)?;
        }
        Err(error) if error.kind() == io::ErrorKind::NotFound => {}
        Err(error) => return Err(error),
    }
    Ok(bytes)
}

fn main(rt: HostRuntime) -> io::Result<()> {
    let file = read_survey(&rt, "survey.book")?;
    let text = listing(rt.alloc(), &file)?;
    // in one write: `print` would go by pieces, and a reader that leaves after the first would make a fault of the answer
    rt.write_all(text.as_bytes())
}
