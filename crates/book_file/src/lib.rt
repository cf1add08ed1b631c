// The book file: its layout taken apart and put together.
#![tactic(auto)]

pub mod decode;
pub mod encode;
pub mod laws;
pub mod records;
pub mod round_trip;
mod writer;
