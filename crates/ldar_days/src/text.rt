ghost use Rattle.std.specs.Prelude.{◌≡◌, ℕ, ◌+◌, ◌-◌, ◌*◌, ◌/◌, ◌%◌, ◌<◌, ◌≤◌, [], ◌∷◌, ◌++◌, length, IsNone, IfSome, Some};
ghost use Rattle.ldar_days.specs.Calendar.{IsDay};
ghost use Rattle.ldar_days.specs.Texts.{pair, month_text, day_text, day_of};

use crate::day::EPOCH;
use crate::{Day, Month};
use jiff::fmt::temporal::{DateTimePrinter, parse_date};
use std::fmt;

impl Day {
    /// The day's text: ten bytes, `YYYY-MM-DD`.
    pub fn text(self) -> [u8; 10]
        ensures value { result ≡ day_text self }
    {
        let text = DateTimePrinter::new().date_text(self.date().to_plain());
        let mut bytes = [0; 10];
        bytes.copy_from_slice(text.as_str().as_bytes());
        bytes
    }

    /// The day with this text, or `None` if the bytes are not exactly the ten bytes of a day's text.
    pub fn read(text: &[u8]) -> Option<Day>
        ensures value { result ≡ day_of text.now }
        ensures found { IfSome result (λ day. IsDay day × (text.now ≡ day_text day)) }
        ensures none { IsNone result → (n : ℕ) → IsDay n → ¬ (text.now ≡ day_text n) }
    {
        let day = day_read(text)?;
        // jiff also reads other texts of the same day, such as 20240220.
        if day.text().as_slice() != text {
            return None;
        }
        Some(day)
    }
}

// The day of the date that jiff reads, if the calendar has it.
fn day_read(text: &[u8]) -> Option<Day>
    ensures found { IfSome result IsDay }
    ensures day_text { (n : ℕ) → IsDay n → text.now ≡ day_text n → result ≡ Some n }
{
    let Ok(date) = parse_date(text) else {
        return None;
    };
    Day::of_number(date.days_since_min().checked_sub(EPOCH)?)
}

#[derive(Clone, Copy)]
struct Pair {
    number: u32,
    ghost in_range: { number < 100 },
}

#[tactic(auto, using(std::proofs::lemmas::Fmt::decimal_digit))]
impl fmt::Display for Pair {
    ghost output = { λ p. Some (pair p.number) };

    fn fmt<W: fmt::Write>(&self, f: &mut fmt::Formatter<W>) -> fmt::Result {
        let (tens, ones) = (self.number / 10, self.number % 10);
        write!(f, "{tens}{ones}")
    }
}

/// A month's text, `YYYY-MM`. The month's number is year * 12 + month - 1 and may be outside the calendar.
#[derive(Clone, Copy, Debug, PartialEq, Eq)]
pub struct MonthText {
    pub number: u32,
    pub ghost in_range: { number < 120_000 },
}

impl fmt::Display for MonthText {
    ghost output = { λ m. Some (month_text m.number) };

    fn fmt<W: fmt::Write>(&self, f: &mut fmt::Formatter<W>) -> fmt::Result {
        let year = self.number / 12;
        let (century, year) = (Pair { number: year / 100 }, Pair { number: year % 100 });
        let month = Pair {
            number: self.number % 12 + 1,
        };
        write!(f, "{century}{year}-{month}")
    }
}

impl fmt::Display for Month {
    ghost output = { λ m. Some (month_text m) };

    fn fmt<W: fmt::Write>(&self, f: &mut fmt::Formatter<W>) -> fmt::Result {
        let text = MonthText {
            number: self.number(),
        };
        write!(f, "{text}")
    }
}

impl fmt::Display for Day {
    ghost output = { λ d. Some (day_text d) };

    fn fmt<W: fmt::Write>(&self, f: &mut fmt::Formatter<W>) -> fmt::Result {
        let date = self.date();
        write!(f, "{date}")
    }
}
