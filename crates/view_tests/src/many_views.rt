//! A process unit with 2,000 valves, and a view after each of 50,000 late batches. A view that counts anew what no batch touched
//! would not end within the time of a test.

use crate::asked::text_of;
use drill_history::drill_batches;
use fact_kinds::{Batch, Fact, FactBody, Purpose};
use ldar_days::Day;
use ldar_law::Request;
use memory_office::Office;
use std::alloc::Global;
use std::process::Abort;
use std::test::Fail;

/// The number of late batches.
const LATE: u32 = 50_000;

/// 2020-06-10.
const JUNE: u32 = 18_423;

/// 2021-02-28.
const FEBRUARY: u32 = 18_686;

/// Batch `number` of handheld 2: a reading of one of the valves, in turn.
fn late_batch(alloc: Global, number: u32) -> Result<Batch, Fail> {
    let component = (1 + number % 2_000) as u16;
    let body = FactBody::Reading {
        component,
        instrument: 1,
        operator: 1,
        purpose: Purpose::Routine,
        ppm: 10,
        background: 0,
    };
    let fact = Fact {
        day: Day::at(JUNE),
        minute: 61,
        body,
    };
    let facts = vec![in alloc; fact]?;
    Ok(Batch::new(2, number, facts).ok_or("a batch")?)
}

/// Adopts a batch if it is accepted.
fn offer(office: &mut Office, batch: &Batch) -> Result<(), Fail> {
    office.reserve(batch)?;
    office.adopt(batch)?;
    Ok(())
}

/// An office with the batches of the drill of 2,000 valves. The one that is sent again is not adopted a second time.
fn drilled(alloc: Global) -> Result<Office, Fail> {
    let mut office = Office::new(alloc);
    for batch in &drill_batches(alloc, 1, 2_000)? {
        offer(&mut office, batch)?;
    }
    Ok(office)
}

/// The percent of quarter 4, as known on 2021-02-28.
fn percent(alloc: Global, office: &mut Office) -> Result<String, Fail> {
    let request = Request::Percent {
        unit: 1,
        quarter: 4,
        day: Day::at(FEBRUARY),
    };
    let shown = office.ask(&request)?;
    Ok(text_of(alloc, &shown)?)
}

/// Adopts the late batches, asks for the view after each of them, and returns what is shown last.
fn shown_last(alloc: Global, office: &mut Office) -> Result<String, Fail> {
    let mut text = percent(alloc, office)?;
    for number in 1..LATE + 1 {
        offer(office, &late_batch(alloc, number)?)?;
        text = percent(alloc, office)?;
    }
    Ok(text)
}

/// What an office shows that is asked only after all batches.
fn shown_once(alloc: Global) -> Result<String, Fail> {
    let mut office = drilled(alloc)?;
    for number in 1..LATE + 1 {
        offer(&mut office, &late_batch(alloc, number)?)?;
    }
    percent(alloc, &mut office)
}

#[test]
fn a_view_after_each_of_50000_batches_is_that_of_a_fresh_office(
    rt: HostRuntime,
) -> Result<(), Fail> {
    let mut office = drilled(rt.alloc())?;
    let found = shown_last(rt.alloc(), &mut office)?;
    let fresh = shown_once(rt.alloc())?;
    if found.as_str() != fresh.as_str() {
        panic!(rt; "{found:?}, and {fresh:?} of a fresh office");
    }
    Ok(())
}
