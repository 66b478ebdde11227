//! Views as tests write them: the name of the view, the process unit, and its other arguments in the order of its text.

ghost use Rattle.std.specs.Prelude.{◌≡◌, IfOk, IfSome};
ghost use Rattle.office_views.specs.Answers.{IsView};

use crate::histories::office;
use crate::words::{day, joined, short};
use ldar_law::Request;
use memory_office::Office;
use office_views::Shown;
use std::alloc::{AllocError, Global};
use std::fmt::Debug;
use std::process::Abort;
use std::test::Fail;

/// The view that a text names.
pub fn request(alloc: Global, text: &str) -> Result<Request, Fail>
    ensures view { IfOk result IsView }
{
    let words: Vec<&str> = text.split_whitespace().collect(alloc)?;
    Ok(view_of(&words).ok_or("view")?)
}

/// The view that these words name, if they do.
fn view_of(words: &[&str]) -> Option<Request>
    ensures view { IfSome result IsView }
{
    let [view, own, rest @ ..] = words else {
        return None;
    };
    let unit = short(own)?;
    match *view {
        "route" => route(unit, rest),
        "percent" | "report" => of_time(view, unit, rest),
        _ => of_day(view, unit, rest),
    }
}

/// `due UNIT DAY`, `tags UNIT DAY` or `delays UNIT DAY`
fn of_day(view: &str, unit: u16, words: &[&str]) -> Option<Request>
    ensures view { IfSome result IsView }
{
    let [date] = words else {
        return None;
    };
    let day = day(date)?;
    match view {
        "due" => Some(Request::Due { unit, day }),
        "tags" => Some(Request::Tags { unit, day }),
        "delays" => Some(Request::Delays { unit, day }),
        _ => None,
    }
}

/// `route UNIT DAY STOPS`
fn route(unit: u16, words: &[&str]) -> Option<Request>
    ensures view { IfSome result IsView }
{
    let [date, most] = words else {
        return None;
    };
    let day = day(date)?;
    let stops = short(most)?;
    Some(Request::Route { unit, day, stops })
}

/// `percent UNIT QUARTER DAY` or `report UNIT HALF DAY`
fn of_time(view: &str, unit: u16, words: &[&str]) -> Option<Request>
    ensures view { IfSome result IsView }
{
    let [number, date] = words else {
        return None;
    };
    let number = short(number)?;
    let day = day(date)?;
    if view == "report" {
        return Some(Request::Report {
            unit,
            half: number,
            day,
        });
    }
    Some(Request::Percent {
        unit,
        quarter: number,
        day,
    })
}

/// What an office shows, or `no such` and what does not exist.
pub fn shown(alloc: Global, office: &mut Office, view: &str) -> Result<String, Fail>
    ensures unchanged { office.new ≡ office.old }
{
    let request = request(alloc, view)?;
    let shown = office.ask(&request)?;
    Ok(text_of(alloc, &shown)?)
}

/// The text of what is shown, or `no such` and what does not exist.
pub fn text_of(alloc: Global, shown: &Shown) -> Result<String, AllocError> {
    match shown {
        Shown::Text(text) => Ok(String::from_utf8_lossy(alloc, text.as_bytes())?),
        Shown::NoSuch(what) => Ok(joined(alloc, &["no such ", what.word()])?),
    }
}

/// What an office shows after it adopts a history.
pub fn answer(alloc: Global, history: &str, view: &str) -> Result<String, Fail> {
    let mut office = office(alloc, history)?;
    shown(alloc, &mut office, view)
}

/// The lines of a text that contain this part.
fn lines_with(alloc: Global, text: &str, part: &str) -> Result<String, AllocError> {
    let mut found = String::new(alloc);
    for line in text.lines() {
        if line.contains(part) {
            found.push_str(line)?;
            found.push_str("\n")?;
        }
    }
    Ok(found)
}

/// All of a text, or only the lines that contain a part, if a part is given.
pub fn part_of(alloc: Global, text: String, part: &str) -> Result<String, AllocError> {
    if part.is_empty() {
        return Ok(text);
    }
    lines_with(alloc, text.as_str(), part)
}

/// What an office shows after it adopts a history: all of it, or only the lines that contain a part, if a part is given.
fn told(alloc: Global, history: &str, view: &str, part: &str) -> Result<String, Fail> {
    let text = answer(alloc, history, view)?;
    Ok(part_of(alloc, text, part)?)
}

/// The last part of a history, a view, a part of lines or an empty text, and the expected text.
pub type Row<'a> = (&'a str, &'a str, &'a str, &'a str);

/// Checks what each row shows, after histories that begin in the same way.
pub fn shows(rt: &impl Abort, alloc: Global, front: &[&str], rows: &[Row]) -> Result<(), Fail> {
    for row in rows {
        shows_row(rt, alloc, front, row)?;
    }
    Ok(())
}

/// Checks what a row shows.
pub fn shows_row(
    rt: &impl Abort,
    alloc: Global,
    front: &[&str],
    (last, view, part, want): &Row,
) -> Result<(), Fail> {
    let mut history = joined(alloc, front)?;
    history.push_str(last)?;
    let found = told(alloc, history.as_str(), view, part)?;
    if found.as_str() != *want {
        panic!(rt; "{last} {view} {part}: {found:?}, not {want:?}");
    }
    Ok(())
}
