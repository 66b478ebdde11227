ghost use Rattle.std.specs.Prelude.{◌<◌, ◌≤◌};

use disk_model::MemoryDisk;
use fact_kinds::{Batch, Class, Designation, Fact, FactBody, Kind, Name, Service};
use ldar_days::Day;
use ldar_law::{Reply, Request};
use office_book::{Book, Office, open_book};
use std::alloc::Global;
use std::test::Fail;

// The header of a journal and a closed gate.
pub const EMPTY: [u8; 17] = *b"LDARJNL1\0\0\0\0\0\0\0\0\0";

// A journal with one frame, of handheld 7's batch 12.
pub const WITH_TWELVE: [u8; 42] = *b"LDARJNL1\0\0\0\0\0\0\0\0\x01\0\0\0\x14\
    \x42\0\x07\0\0\0\x0c\0\x01\x07\x4d\x3d\x02\x58\0\x01\0\0\x01\xf4\0";

// The days 2020-01-15, 2024-01-02 and 2024-02-20.
const STARTUP: u32 = 18_276;

const NEW_YEAR: u32 = 19_724;

const FEBRUARY: u32 = 19_773;

// The office over a journal in memory.
pub fn opened(alloc: Global, bytes: &[u8]) -> Result<Book<MemoryDisk>, Fail> {
    match open_book(alloc, MemoryDisk::new(alloc, bytes, &[])?) {
        Ok(book) => Ok(book),
        Err(_) => Err(Fail::from("an office")),
    }
}

// A request to keep these facts.
fn batch_of(alloc: Global, handheld: u16, number: u32, given: &[Fact]) -> Result<Request, Fail> {
    let mut facts = Vec::new(alloc);
    for fact in given {
        facts.push(*fact)?;
    }
    let batch = Batch::new(handheld, number, facts).ok_or("a batch")?;
    Ok(Request::Sync(batch))
}

// A request of a handheld to keep a calibration of instrument 1 with this gas, on 2024-02-20 at 10:00.
pub fn calibration(alloc: Global, handheld: u16, number: u32, gas: u16) -> Result<Request, Fail>
    requires some { 0 < gas }
{
    let body = FactBody::Calibration {
        instrument: 1,
        gas: u32::from(gas),
    };
    let fact = Fact {
        day: Day::at(FEBRUARY),
        minute: 600,
        body,
    };
    batch_of(alloc, handheld, number, &[fact])
}

// A component of unit 1, from the startup on.
fn component(component: u16, kind: Kind, service: Service, monomer: bool) -> Fact
    requires in_range { (0 < component) × (component ≤ 60_000) }
{
    let class = Class {
        service,
        designation: Designation::Plain,
        plan: 0,
        month: 1,
    };
    let body = FactBody::Component {
        component,
        unit: 1,
        kind,
        monomer,
        replaces: false,
        class,
    };
    Fact {
        day: Day::at(STARTUP),
        minute: 0,
        body,
    }
}

// The register of the base: unit 1 with nine components.
fn register(alloc: Global) -> Result<Request, Fail> {
    let name = Name::new(b"CRUDE").ok_or("a name")?;
    let unit = Fact {
        day: Day::at(STARTUP),
        minute: 0,
        body: FactBody::Unit {
            unit: 1,
            older: false,
            name,
        },
    };
    let facts = [
        unit,
        component(1, Kind::Valve, Service::Gas, false),
        component(2, Kind::Valve, Service::Gas, false),
        component(3, Kind::Valve, Service::Gas, false),
        component(4, Kind::Valve, Service::Gas, false),
        component(5, Kind::Pump, Service::Light, false),
        component(6, Kind::Pump, Service::Light, true),
        component(7, Kind::Pump, Service::Heavy, false),
        component(8, Kind::Relief, Service::Gas, false),
        component(9, Kind::Compressor, Service::Gas, false),
    ];
    batch_of(alloc, 0, 1, &facts)
}

// A precision test of instrument 1.
fn precision(alloc: Global) -> Result<Request, Fail> {
    let fact = Fact {
        day: Day::at(NEW_YEAR),
        minute: 600,
        body: FactBody::Precision {
            instrument: 1,
            value: 500,
            readings: (500, 500, 500),
        },
    };
    batch_of(alloc, 1, 1, &[fact])
}

// An office with two batches: the register, and a precision test.
pub fn base(alloc: Global) -> Result<Book<MemoryDisk>, Fail> {
    let mut book = opened(alloc, &EMPTY)?;
    for request in [register(alloc)?, precision(alloc)?] {
        match book.ask(alloc, &request) {
            Reply::Receipt { .. } => {}
            _ => return Err(Fail::from("a receipt")),
        }
    }
    Ok(book)
}
