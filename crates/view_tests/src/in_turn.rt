//! One office that is asked, adopts late batches and is asked again. It must show what the table says, and what a fresh office
//! shows of the same batches.

use crate::asked::{Row, answer, part_of, shown};
use crate::histories::{adopt, batches, office};
use crate::words::joined;
use memory_office::Office;
use std::alloc::Global;
use std::process::Abort;
use std::test::Fail;

/// Adopts the batches of a history after the first ones.
fn adopt_after(
    alloc: Global,
    office: &mut Office,
    history: &str,
    first: usize,
) -> Result<(), Fail> {
    for (place, batch) in batches(alloc, history)?.iter().enumerate() {
        if place >= first {
            adopt(office, batch)?;
        }
    }
    Ok(())
}

/// Checks that an office shows what a fresh office shows of the same history, and returns it.
pub fn same_as_fresh(
    rt: &impl Abort,
    alloc: Global,
    office: &mut Office,
    history: &str,
    view: &str,
) -> Result<String, Fail> {
    let found = shown(alloc, office, view)?;
    let fresh = answer(alloc, history, view)?;
    if found.as_str() != fresh.as_str() {
        panic!(rt; "{history}{view}: {found:?}, and {fresh:?} of a fresh office");
    }
    Ok(found)
}

/// Adopts the late batches of a row, and checks what is shown then.
fn shows_next(
    rt: &impl Abort,
    alloc: Global,
    office: &mut Office,
    history: &mut String,
    (late, view, part, want): &Row,
) -> Result<(), Fail> {
    let first = history.lines().count();
    history.push_str(late)?;
    adopt_after(alloc, office, history.as_str(), first)?;
    let text = same_as_fresh(rt, alloc, office, history.as_str(), view)?;
    let found = part_of(alloc, text, part)?;
    if found.as_str() != *want {
        panic!(rt; "{late} {view} {part}: {found:?}, not {want:?}");
    }
    Ok(())
}

/// The days of which all views are compared.
const DAYS: [&str; 4] = ["2024-03-31", "2024-06-30", "2024-07-31", "2024-12-31"];

/// The views of a day, each before the day and after it.
const VIEWS: [(&str, &str); 9] = [
    ("due 1 ", ""),
    ("tags 1 ", ""),
    ("delays 1 ", ""),
    ("route 1 ", " 3"),
    ("percent 1 16 ", ""),
    ("percent 1 17 ", ""),
    ("percent 1 18 ", ""),
    ("report 1 8 ", ""),
    ("report 1 9 ", ""),
];

/// Checks that all views of a day are those of a fresh office.
fn all_as_fresh(
    rt: &impl Abort,
    alloc: Global,
    (office, fresh): (&mut Office, &mut Office),
    day: &str,
) -> Result<(), Fail> {
    for (before, behind) in &VIEWS {
        let view = joined(alloc, &[before, day, behind])?;
        let found = shown(alloc, office, view.as_str())?;
        let other = shown(alloc, fresh, view.as_str())?;
        if found.as_str() != other.as_str() {
            panic!(rt; "{view}: {found:?}, and {other:?} of a fresh office");
        }
    }
    Ok(())
}

/// Checks what one office shows, row after row: a row has the batches that come next, a view, a part of lines or an empty text, and
/// the expected text. At the end all views of some days must be those of a fresh office.
pub fn shows_in_turn(
    rt: &impl Abort,
    alloc: Global,
    front: &[&str],
    rows: &[Row],
) -> Result<(), Fail> {
    let mut history = joined(alloc, front)?;
    let mut asked = office(alloc, history.as_str())?;
    for row in rows {
        shows_next(rt, alloc, &mut asked, &mut history, row)?;
    }
    let mut fresh = office(alloc, history.as_str())?;
    for day in &DAYS {
        all_as_fresh(rt, alloc, (&mut asked, &mut fresh), day)?;
    }
    Ok(())
}
