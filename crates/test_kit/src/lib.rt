//! What the tests of several crates share: checks that name their case, and functions that make days, words and pieces from text.
#![tactic(auto)]

use ldar_days::Day;
use std::alloc::{AllocError, Global};
use std::fmt::Debug;
use std::test::Fail;

/// A failure that names its case, if what was found is not what was expected.
pub fn same<T: PartialEq + Debug>(case: &str, found: &T, want: &T) -> Result<(), Fail> {
    if *found == *want {
        return Ok(());
    }
    Err(Fail::new(format_args!("{case}: {found:?}, not {want:?}")))
}

/// A failure with this name, if the condition is false.
pub fn is(so: bool, what: &str) -> Result<(), Fail> {
    if so { Ok(()) } else { Err(Fail::from(what)) }
}

/// The day with this text.
pub fn day(text: &str) -> Result<Day, Fail> {
    Ok(Day::read(text.as_bytes()).ok_or("day")?)
}

/// The words of a line, separated by single blanks.
pub fn words_of(alloc: Global, line: &str) -> Result<Vec<String>, AllocError> {
    let mut words = Vec::new(alloc);
    for word in line.split_terminator(' ') {
        words.push(String::from_str(alloc, word)?)?;
    }
    Ok(words)
}

/// The bytes in pieces of this size, or of one byte if the size is 0.
pub fn pieces_of(alloc: Global, bytes: &[u8], size: usize) -> Result<Vec<Vec<u8>>, AllocError> {
    let mut pieces = Vec::new(alloc);
    for piece in bytes.chunks(size.max(1)) {
        pieces.push(Vec::from_slice(alloc, piece)?)?;
    }
    Ok(pieces)
}
