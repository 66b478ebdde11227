//! The words of lines: the cause of a duty, its state, and the sort of a tag.

ghost use Rattle.std.specs.Prelude.{◌≡◌};
ghost use Rattle.seal_texts.specs.SealTexts as spec;

use ldar_days::Day;
use pump_seals::SealDuty;
use std::fmt;

/// The cause of a duty, from 1.
#[derive(Clone, Copy)]
pub struct Cause(pub u8);

impl fmt::Display for Cause {
    ghost use Rattle.std.specs.Prelude.{Some};
    ghost use Rattle.seal_texts.specs.SealTexts.{cause_text};

    ghost output = { λ c. Some (cause_text c.0) };

    fn fmt<W: fmt::Write>(&self, f: &mut fmt::Formatter<W>) -> fmt::Result {
        let word = cause_word(self.0);
        write!(f, "{word}")
    }
}

/// The word of a cause. Numbers past the last cause have no word; 0, which is no cause, has that of 1.
fn cause_word(cause: u8) -> &'static str
    ensures value { result.now ≡ spec.cause_text cause }
{
    match cause {
        0..=1 => "sealweek",
        2 => "sealdrip",
        _ => "",
    }
}

/// The sort of a tag, from 1.
#[derive(Clone, Copy)]
pub struct Sort(pub u8);

impl fmt::Display for Sort {
    ghost use Rattle.std.specs.Prelude.{Some};
    ghost use Rattle.seal_texts.specs.SealTexts.{sort_text};

    ghost output = { λ s. Some (sort_text s.0) };

    fn fmt<W: fmt::Write>(&self, f: &mut fmt::Formatter<W>) -> fmt::Result {
        let word = sort_word(self.0);
        write!(f, "{word}")
    }
}

/// The word of a sort. Numbers past the last sort have no word; 0, which is no sort, has that of 1.
fn sort_word(sort: u8) -> &'static str
    ensures value { result.now ≡ spec.sort_text sort }
{
    match sort {
        0..=1 => "reading",
        2 => "drip",
        3 => "sensor",
        _ => "",
    }
}

/// The state of a duty on a day.
#[derive(Clone, Copy)]
pub struct State {
    pub day: Day,
    pub duty: SealDuty,
}

impl fmt::Display for State {
    ghost use Rattle.std.specs.Prelude.{Some};
    ghost use Rattle.seal_texts.specs.SealTexts.{state_text};

    ghost output = { λ s. Some (state_text s.day s.duty) };

    fn fmt<W: fmt::Write>(&self, f: &mut fmt::Formatter<W>) -> fmt::Result {
        match self.duty.met {
            Some(day) => write!(f, "done {day}"),
            None => if self.day <= self.duty.due {
                write!(f, "open")
            } else {
                write!(f, "missed")
            },
        }
    }
}
