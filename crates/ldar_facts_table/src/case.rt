use std::alloc::Global;

/// The expected result of reading some bytes.
#[derive(Clone, Copy, PartialEq, Eq)]
pub enum Expected {
    /// A batch, in the first `used` bytes.
    Whole { used: usize },
    Short,
    /// No batch; `at` is the first wrong place, from 0.
    Bad { at: usize },
}

/// A line of the table: some bytes, and the expected result of reading them.
#[derive(Drop)]
pub struct Case {
    pub bytes: Vec<u8>,
    pub want: Expected,
}

/// The case of a line, or `None` if the line is not one of the table.
pub fn case_of(alloc: Global, line: &str) -> Option<Case> {
    let mut words = line.split(' ');
    let bytes = hex::decode(alloc, words.next()?).ok()?;
    let want = match words.next()? {
        "whole" => Expected::Whole {
            used: words.next()?.parse().ok()?,
        },
        "short" => Expected::Short,
        "bad" => Expected::Bad {
            at: words.next()?.parse().ok()?,
        },
        _ => return None,
    };
    Some(Case { bytes, want })
}
