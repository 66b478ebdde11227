use crate::book::{Asked, FAULT, GATE, GATE_SYNC, Row, opened, runs, says};
use disk_model::MemoryDisk;
use ldar_days::Day;
use ldar_law::What;
use office_book::Book;
use office_views::AskError;
use std::alloc::Global;
use std::test::Fail;
use test_kit::is;

const VIEW: [Asked; 1] = [Asked::Percent];

const UNIT: [Asked; 1] = [Asked::Unit];

const NO_UNIT: &str = "no such unit\n";

// The view of a unit without components.
const SHOWN: &str = "percent 1 16 leaking 0 monitored 0 not good not skipped\n";

// The unit is kept; a view before and after.
const VIEWED: [Row; 4] = [
    (&VIEW, NO_UNIT, 0, 17),
    (&UNIT, "receipt 0 1 1\n", 1, 50),
    (&VIEW, SHOWN, 1, 50),
    (&VIEW, SHOWN, 1, 50),
];

#[test]
fn a_view_shows_what_is_kept(rt: HostRuntime) -> Result<(), Fail> {
    runs(rt.alloc(), &[], &VIEWED)
}

// A disk error while the unit is being kept; the unit turns out to be kept.
const SETTLED: [Row; 2] = [(&UNIT, FAULT, 0, 50), (&VIEW, SHOWN, 1, 50)];

// The same, if settling fails once too.
const SETTLED_LATER: [Row; 3] = [
    (&UNIT, FAULT, 0, 50),
    (&VIEW, FAULT, 0, 50),
    (&VIEW, SHOWN, 1, 50),
];

// The same, but the unit turns out to be gone.
const GONE_LATER: [Row; 3] = [
    (&UNIT, FAULT, 0, 50),
    (&VIEW, FAULT, 0, 50),
    (&VIEW, NO_UNIT, 0, 50),
];

#[test]
fn a_view_settles_first(rt: HostRuntime) -> Result<(), Fail> {
    runs(rt.alloc(), &[GATE_SYNC], &SETTLED)?;
    runs(rt.alloc(), &[GATE, GATE + 1], &GONE_LATER)?;
    runs(rt.alloc(), &[GATE_SYNC, GATE_SYNC + 1], &SETTLED_LATER)
}

// The reason why the unit has no report, or `None` if it has one.
fn report_fails(alloc: Global, book: &mut Book<MemoryDisk>) -> Option<AskError> {
    book.report(alloc, 1, 8, Day::at(19_813)).err()
}

// Checks that there is a report of the unit once it is kept.
fn reports(alloc: Global, book: &mut Book<MemoryDisk>) -> Result<(), Fail> {
    let none = report_fails(alloc, book);
    is(
        matches!(none, Some(AskError::NoSuch(What::Unit))),
        "no such unit",
    )?;
    says(alloc, book, Asked::Unit, "receipt 0 1 1\n")?;
    is(report_fails(alloc, book).is_none(), "a report")
}

#[test]
fn a_report_speaks_of_what_is_kept(rt: HostRuntime) -> Result<(), Fail> {
    let mut book = opened(rt.alloc(), &[])?;
    reports(rt.alloc(), &mut book)
}
