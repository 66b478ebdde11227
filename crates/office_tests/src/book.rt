ghost use Rattle.std.specs.Prelude.{◌<◌, IfOk};
ghost use Rattle.office_interface.specs.Asking.{HasRule};

use crate::journal_bytes::EMPTY;
use at_once::says_at_once;
use disk_model::{Disk, MemoryDisk};
use fact_kinds::{Batch, Fact, FactBody, Name};
use ldar_days::Day;
use ldar_law::{Reply, Request};
use office_book::{Book, BookError, Office, open_book};
use std::alloc::Global;
use std::test::Fail;
use test_kit::is;

mod at_once;
mod faults;
mod groups;
mod openings;
mod receipts;
mod rooms;
mod stops;
mod views;

// A request: to keep a batch of one fact, or for a view.
#[derive(Clone, Copy)]
enum Asked {
    // A batch of handheld 7 with this number: a calibration of instrument 1 on 2024-02-20 at 10:00 with 500 ppm.
    Calibration(u32),
    // The same with 501 ppm.
    Changed(u32),
    // A batch of handheld 7 with this number: an attempt at component 1, which is not in the register.
    Unknown(u32),
    // A batch of handheld 0 with number 1: unit 1, CRUDE, which started up on 2020-01-15 and is not older.
    Unit,
    // The percent view of unit 1 in quarter 16, as of 2024-03-31.
    Percent,
}

const TWELVE: Asked = Asked::Calibration(12);

const CHANGED: Asked = Asked::Changed(12);

const THIRTEEN: Asked = Asked::Calibration(13);

const FOURTEEN: Asked = Asked::Calibration(14);

const UNKNOWN: Asked = Asked::Unknown(15);

// The line of the reply.
const DENIED: &str = "denied 1 1 60.486a(e)(1)\n";

const FAULT: &str = "disk fault\n";

// The calls of the disk after the two that open an office: a frame, its sync, its gate, and the sync after the gate.
const BODY: u64 = 2;

const BODY_SYNC: u64 = 3;

const GATE: u64 = 4;

const GATE_SYNC: u64 = 5;

// The request.
fn request(alloc: Global, asked: Asked) -> Result<Request, Fail> {
    match asked {
        Asked::Calibration(number) => of_one(alloc, 7, number, calibration(500)),
        Asked::Changed(number) => of_one(alloc, 7, number, calibration(501)),
        Asked::Unknown(number) => of_one(alloc, 7, number, attempt()),
        Asked::Unit => of_one(alloc, 0, 1, unit()?),
        Asked::Percent => Ok(Request::Percent {
            unit: 1,
            quarter: 16,
            day: Day::at(19_813),
        }),
    }
}

// A request to keep a batch of this one fact.
fn of_one(alloc: Global, handheld: u16, number: u32, fact: Fact) -> Result<Request, Fail> {
    let mut facts = Vec::new(alloc);
    facts.push(fact)?;
    let batch = Batch::new(handheld, number, facts).ok_or("a batch")?;
    Ok(Request::Sync(batch))
}

fn calibration(gas: u16) -> Fact
    requires some { 0 < gas }
{
    Fact {
        day: Day::at(19_773),
        minute: 600,
        body: FactBody::Calibration {
            instrument: 1,
            gas: u32::from(gas),
        },
    }
}

fn attempt() -> Fact {
    Fact {
        day: Day::at(19_773),
        minute: 600,
        body: FactBody::Attempt {
            component: 1,
            complete: true,
        },
    }
}

fn unit() -> Result<Fact, Fail> {
    let name = Name::new(b"CRUDE").ok_or("a name")?;
    Ok(Fact {
        day: Day::at(18_276),
        minute: 0,
        body: FactBody::Unit {
            unit: 1,
            older: false,
            name,
        },
    })
}

// An office over an empty journal, on a disk whose calls with these numbers fail.
fn opened(alloc: Global, failing: &[u64]) -> Result<Book<MemoryDisk>, Fail> {
    reopened(alloc, MemoryDisk::new(alloc, &EMPTY, failing)?)
}

// The result of opening the journal of a disk.
fn opening<D: Disk>(alloc: Global, disk: D) -> Result<Book<D>, BookError<D>> {
    open_book(alloc, disk)
}

// The office over the journal of a disk.
fn reopened<D: Disk>(alloc: Global, disk: D) -> Result<Book<D>, Fail> {
    match opening(alloc, disk) {
        Ok(book) => Ok(book),
        Err(_) => Err(Fail::from("an office")),
    }
}

// The reply to a request.
fn answered<O: Office>(alloc: Global, office: &mut O, asked: Asked) -> Result<Reply, Fail>
    ensures ruled { IfOk result HasRule }
{
    let request = request(alloc, asked)?;
    Ok(office.ask(alloc, &request))
}

// The line of a reply.
fn line_of(alloc: Global, reply: &Reply) -> Result<Vec<u8>, Fail>
    requires ruled { HasRule reply.now }
{
    let mut line = Vec::new(alloc);
    reply.put_line(alloc, &mut line)?;
    Ok(line)
}

// Checks that this is the line of the reply.
fn says<O: Office>(alloc: Global, office: &mut O, asked: Asked, want: &str) -> Result<(), Fail> {
    let reply = answered(alloc, office, asked)?;
    let line = line_of(alloc, &reply)?;
    is(line.as_slice() == want.as_bytes(), want)
}

// Checks that these are the lines of the replies, one after the other.
fn says_each<O: Office>(
    alloc: Global,
    office: &mut O,
    lines: &[(Asked, &str)],
) -> Result<(), Fail> {
    for (asked, want) in lines {
        says(alloc, office, *asked, want)?;
    }
    Ok(())
}

// Requests, made alone or in one call; the lines of the replies; and after them the number of kept batches, of one fact each,
// and the length of the journal in bytes.
type Row<'a> = (&'a [Asked], &'a str, u32, usize);

// Checks these rows with an office over an empty journal, on a disk on which the calls with these numbers fail.
fn runs(alloc: Global, failing: &[u64], rows: &[Row]) -> Result<(), Fail> {
    let mut book = opened(alloc, failing)?;
    goes_on(alloc, &mut book, rows)
}

// The disk of an office over an empty journal after these rows, which are checked.
fn disk_of(alloc: Global, rows: &[Row]) -> Result<MemoryDisk, Fail> {
    let mut book = opened(alloc, &[])?;
    goes_on(alloc, &mut book, rows)?;
    Ok(book.into_disk())
}

// Checks these rows with an office. Each `Fault` in a reply must be an error of its disk.
fn goes_on(alloc: Global, book: &mut Book<MemoryDisk>, rows: &[Row]) -> Result<(), Fail> {
    for row in rows {
        goes(alloc, book, *row)?;
    }
    Ok(())
}

// Checks one row with an office.
fn goes(alloc: Global, book: &mut Book<MemoryDisk>, row: Row) -> Result<(), Fail> {
    let (asked, want, batches, bytes) = row;
    let before = book.disk().faults();
    says_all(alloc, book, asked, want)?;
    let fault = u64::from(want.ends_with(FAULT));
    is(
        book.disk().faults() == before.saturating_add(fault),
        "the count of faults",
    )?;
    holds(book, batches, bytes)
}

// Checks that these are the lines of the replies to requests made alone or in one call.
fn says_all<O: Office>(
    alloc: Global,
    office: &mut O,
    asked: &[Asked],
    want: &str,
) -> Result<(), Fail> {
    match asked {
        [one] => says(alloc, office, *one, want),
        _ => says_at_once(alloc, office, asked, want),
    }
}

// Checks the number of kept batches, of one fact each, and the length of the journal in bytes.
fn holds(book: &Book<MemoryDisk>, batches: u32, bytes: usize) -> Result<(), Fail> {
    is(
        book.counts() == (batches, u64::from(batches)),
        "what is kept",
    )?;
    is(book.disk().bytes().len() == bytes, "the journal's length")
}
