ghost use Rattle.std.specs.Prelude.{◌≡◌, ◌==◌, ◌<◌};
ghost use Rattle.std.specs.List.{before_first, after_first};
ghost use Rattle.handheld_http.specs.Requests as spec;

use crate::fields::{is_number, number_of};
use crate::routes::Page;
use ldar_days::Day;
use ldar_law::{Request, What};

/// The text before the first such mark, and the text after it.
fn split(text: &str, mark: char) -> (&str, &str)
    requires { mark < 128 }
    ensures front { result.0.now ≡ before_first (λ b. b == mark) text.now }
    ensures rest { result.1.now ≡ after_first (λ b. b == mark) text.now }
{
    text.split_once(mark).unwrap_or((text, ""))
}

/// The path of a target: everything before the first question mark.
pub(crate) fn path_of(target: &str) -> &str
    ensures { result.now ≡ spec.path_of target.now }
{
    split(target, '?').0
}

/// The next part of a path, and the text after its slash.
fn next_part(text: &str) -> (&str, &str)
    ensures part { result.0.now ≡ spec.part text.now }
    ensures rest { result.1.now ≡ spec.rest text.now }
{
    split(text, '/')
}

/// The parts of a view's path, after the view's name.
pub(crate) fn parts_of(path: &str) -> &str
    ensures { result.now ≡ spec.parts_of path.now }
{
    next_part(next_part(path).1).1
}

/// Whether a zero is before other digits.
fn has_leading_zero(text: &[u8]) -> bool
    ensures { result ≡ spec.has_leading_zero text.now }
{
    text.len() > 1 && text[0] == b'0'
}

/// The number that a decimal without leading zeros spells, if it is at most `greatest`.
#[tactic(auto, unfolding(crate::specs::Requests::decimal_in))]
fn decimal_in(greatest: u16, text: &str) -> Option<u16>
    ensures { result ≡ spec.decimal_in greatest text.now }
{
    let digits = text.as_bytes();
    if !is_number(digits) || has_leading_zero(digits) {
        return None;
    }
    let number = number_of(digits);
    if number > usize::from(greatest) {
        return None;
    }
    Some(number as u16)
}

fn unit_in(text: &str) -> Result<u16, What>
    ensures { result ≡ spec.unit_in text.now }
{
    decimal_in(255, text).ok_or(What::Unit)
}

/// A number, or `what` if the text is no number from 0 to 65,535.
fn number_in(what: What, text: &str) -> Result<u16, What>
    ensures { result ≡ spec.number_in what text.now }
{
    decimal_in(65_535, text).ok_or(what)
}

fn day_in(text: &str) -> Result<Day, What>
    ensures { result ≡ spec.day_in text.now }
{
    Day::read(text.as_bytes()).ok_or(What::Day)
}

/// The request of a view, from its parts after the unit.
#[tactic(auto, unfolding(crate::specs::Requests::view_on))]
fn view_on(page: Page, unit: u16, parts: &str) -> Result<Request, What>
    ensures { result ≡ spec.view_on page unit parts.now }
{
    let (second, rest) = next_part(next_part(parts).1);
    let third = next_part(rest).0;
    match page {
        Page::Due => Ok(Request::Due {
            unit,
            day: day_in(second)?,
        }),
        Page::Tags => Ok(Request::Tags {
            unit,
            day: day_in(second)?,
        }),
        Page::Delays => Ok(Request::Delays {
            unit,
            day: day_in(second)?,
        }),
        Page::Route => Ok(Request::Route {
            unit,
            day: day_in(second)?,
            stops: number_in(What::Stops, third)?,
        }),
        Page::Percent => Ok(Request::Percent {
            unit,
            quarter: number_in(What::Quarter, second)?,
            day: day_in(third)?,
        }),
        Page::Report => Ok(Request::Report {
            unit,
            half: number_in(What::Half, second)?,
            day: day_in(third)?,
        }),
    }
}

/// The request of a view, from its parts, or the first part that names nothing.
#[tactic(auto, unfolding(crate::specs::Requests::view_of))]
pub(crate) fn view_of(page: Page, parts: &str) -> Result<Request, What>
    ensures { result ≡ spec.view_of page parts.now }
{
    let unit = unit_in(next_part(parts).0)?;
    view_on(page, unit, parts)
}
