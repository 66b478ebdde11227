//! Choices that look random and are the same in each run.

ghost use Rattle.std.specs.Prelude.{◌<◌};

use std::alloc::{AllocError, Global};
use std::test::Fail;

/// A source of choices.
#[derive(Drop)]
pub struct Dice {
    state: u64,
}

impl Dice {
    /// The source of choices with this number.
    pub fn new(seed: u64) -> Dice {
        Dice { state: seed }
    }

    /// A number below `count`.
    pub fn below(&mut self, count: u64) -> u64
        requires some { 0 < count }
        ensures in_range { result < count }
    {
        let next = self.state.wrapping_mul(6_364_136_223_846_793_005);
        self.state = next.wrapping_add(1_442_695_040_888_963_407);
        (self.state >> 33) % count
    }

    /// One of the words.
    pub fn one_of<'a>(&mut self, words: &[&'a str]) -> Result<&'a str, Fail> {
        let count = words.len() as u64;
        if count == 0 {
            return Err(Fail::from("no word"));
        }
        let place = self.below(count) as usize;
        Ok(words.get(place).ok_or("word")?)
    }
}

/// The words that a word in capitals stands for.
pub type Choice<'a> = (&'a str, &'a [&'a str]);

/// The words that a word stands for, if it stands for some.
fn choices_of<'a>(choices: &[Choice<'a>], word: &str) -> Option<&'a [&'a str]> {
    for (name, words) in choices {
        if *name == word {
            return Some(words);
        }
    }
    None
}

/// A text in which each word that stands for others is replaced by one of them.
pub fn told(
    alloc: Global,
    dice: &mut Dice,
    choices: &[Choice],
    text: &str,
) -> Result<String, Fail> {
    let mut told = String::new(alloc);
    for word in text.split(' ') {
        let chosen = match choices_of(choices, word) {
            Some(words) => dice.one_of(words)?,
            None => word,
        };
        told.push_str(chosen)?;
        told.push_str(" ")?;
    }
    Ok(told)
}
