//! The words in the tables of tests.

ghost use Rattle.std.specs.Prelude.{◌≤◌, IfSome};

use ldar_days::Day;
use std::alloc::{AllocError, Global};

/// The number that a word spells, if it is in a range.
pub fn number(word: &str, least: u32, most: u32) -> Option<u32>
    ensures in_range { IfSome result (λ n. (least ≤ n) × (n ≤ most)) }
{
    let n = word.parse::<u32>().ok()?;
    if n < least || most < n {
        return None;
    }
    Some(n)
}

/// The number of a component.
pub fn component(word: &str) -> Option<u16>
    ensures in_range { IfSome result (λ n. (1 ≤ n) × (n ≤ 60_000)) }
{
    Some(number(word, 1, 60_000)? as u16)
}

/// The number of a process unit.
pub fn unit(word: &str) -> Option<u8>
    ensures in_range { IfSome result (λ n. (1 ≤ n) × (n ≤ 64)) }
{
    Some(number(word, 1, 64)? as u8)
}

/// A number of 16 bits, for requests.
pub fn short(word: &str) -> Option<u16> {
    Some(number(word, 0, 65_535)? as u16)
}

/// Parts per million by volume.
pub fn ppm(word: &str) -> Option<u32>
    ensures in_range { IfSome result (λ n. n ≤ 999_999) }
{
    number(word, 0, 999_999)
}

/// The day that a word spells.
pub fn day(word: &str) -> Option<Day> {
    Day::read(word.as_bytes())
}

/// Whether a word is one of these.
pub fn has(words: &[&str], word: &str) -> bool {
    words.iter().any(|other| *other == word)
}

/// The texts, joined in order.
pub fn joined(alloc: Global, parts: &[&str]) -> Result<String, AllocError> {
    let mut text = String::new(alloc);
    for part in parts {
        text.push_str(part)?;
    }
    Ok(text)
}
