//! The words of lines: an optional day, the end of a repair period, a cause, a ground and a name.

ghost use Rattle.std.specs.Prelude.{◌≡◌};
ghost use Rattle.ldar_law.specs.Texts as law;

use fact_kinds::Name;
use ldar_days::Day;
use ldar_law::{DelayEntry, Until};
use std::fmt;

/// A day, or a hyphen for no day.
#[derive(Clone, Copy)]
pub struct DayOrHyphen(pub Option<Day>);

impl fmt::Display for DayOrHyphen {
    ghost use Rattle.std.specs.Prelude.{Some};
    ghost use Rattle.ldar_law.specs.Texts.{day_or_hyphen};

    ghost output = { λ d. Some (day_or_hyphen d.0) };

    fn fmt<W: fmt::Write>(&self, f: &mut fmt::Formatter<W>) -> fmt::Result {
        match self.0 {
            Some(day) => write!(f, "{day}"),
            None => write!(f, "-"),
        }
    }
}

/// The day by which a leak must be repaired (40 CFR 60.482-9a).
#[derive(Clone, Copy)]
pub struct UntilWhen(pub Until);

impl fmt::Display for UntilWhen {
    ghost use Rattle.std.specs.Prelude.{Some};
    ghost use Rattle.ldar_law.specs.Texts.{until_text};

    ghost output = { λ u. Some (until_text u.0) };

    fn fmt<W: fmt::Write>(&self, f: &mut fmt::Formatter<W>) -> fmt::Result {
        match self.0 {
            Until::Date(day) => write!(f, "{day}"),
            Until::Shutdown => write!(f, "shutdown"),
            Until::WhileIsolated => write!(f, "isolated"),
            Until::NoDate => write!(f, "purge"),
        }
    }
}

/// The cause of a duty, from 1.
#[derive(Clone, Copy)]
pub struct Cause(pub u8);

impl fmt::Display for Cause {
    ghost use Rattle.std.specs.Prelude.{Some};
    ghost use Rattle.ldar_law.specs.Texts.{cause_text};

    ghost output = { λ c. Some (cause_text c.0) };

    fn fmt<W: fmt::Write>(&self, f: &mut fmt::Formatter<W>) -> fmt::Result {
        let word = cause_word(self.0);
        write!(f, "{word}")
    }
}

/// The word of a cause. Numbers past the last cause have no word; 0, which is no cause, has that of 1.
fn cause_word(cause: u8) -> &'static str
    ensures value { result.now ≡ law.cause_text cause }
{
    match cause {
        0..=1 => "first",
        2 => "monthly",
        3 => "quarterly",
        4 => "yearly",
        5 => "plan",
        6 => "weekly",
        7 => "drip",
        8 => "release",
        9 => "evidence",
        _ => "",
    }
}

/// The ground of a delay.
#[derive(Clone, Copy)]
pub struct Ground(pub DelayEntry);

impl fmt::Display for Ground {
    ghost use Rattle.std.specs.Prelude.{Some};
    ghost use Rattle.ldar_law.specs.Texts.{ground_text};

    ghost output = { λ g. Some (ground_text g.0) };

    fn fmt<W: fmt::Write>(&self, f: &mut fmt::Formatter<W>) -> fmt::Result {
        let word = ground_word(&self.0);
        write!(f, "{word}")
    }
}

/// The paragraph of 40 CFR 60.482-9a that allows the delay. A number that is no ground has no word.
fn ground_word(delay: &DelayEntry) -> &'static str
    ensures value { result.now ≡ law.ground_text delay.now }
{
    match delay.ground {
        0 => "withdrawn",
        1 => "a",
        2 => "b",
        3 => "c",
        4 => "d",
        5 => "e",
        _ => "",
    }
}

/// The name of a process unit as text.
#[tactic(auto, using(crate::proofs::NameLemmas::name_is_text))]
pub fn name_word(name: &Name) -> &str
    ensures value { result.now ≡ name.now }
{
    match std::str::from_utf8(name.as_bytes()) {
        Ok(word) => word,
        // This cannot happen: a name is capital letters, digits and hyphens.
        Err(_) => "",
    }
}
