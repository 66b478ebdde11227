//! Views after memory ran out. `rt try --test --fail-alloc N` makes one allocation fail: the test passes if it is one of a batch that is
//! adopted or of a view.

ghost use Rattle.std.specs.Prelude.{◌≡◌, Some, slice_get, OnOk};
ghost use Rattle.office_views.specs.Answers.{IsView};

use crate::asked::{request, text_of};
use crate::histories::{CRUDE, PASSES, batches};
use crate::words::joined;
use fact_kinds::{Batch, Memory};
use ldar_law::Request;
use memory_office::Office;
use office_views::Shown;
use std::alloc::Global;
use std::test::Fail;
use test_kit::{is, same};

/// A leak of valve 1, a delay until a shutdown, and its withdrawal.
const LEAK: &str = "7: 2024-02-20 300 calibration 500; 2024-02-20 615 reading 1 620 0\n\
    7: 2024-03-01 600 delay 1 a 9 2024-06-10\n\
    7: 2024-07-01 600 delay 1 withdrawn 9 2024-06-10\n";

/// A shutdown, and readings of valve 2 with a drift assessment, arrive late.
const LATE: &str = "0: 2024-06-01 0 shutdown 1 14\n\
    8: 2024-02-21 300 calibration 500; 2024-02-21 600 reading 2 20 0; 2024-02-21 700 drift 500 440 440 440\n";

/// The batches of the history, the two late ones at its end.
fn all_batches(alloc: Global) -> Result<Vec<Batch>, Fail> {
    let history = joined(alloc, &[CRUDE, PASSES, LEAK, LATE])?;
    batches(alloc, history.as_str())
}

/// Makes room for a batch, again if memory runs out.
fn reserve_at_last(office: &mut Office, batch: &Batch) -> Result<(), Memory>
    ensures roomy { OnOk result (slice_get office.new.spare 0 ≡ Some batch.now) }
{
    match office.reserve(batch) {
        Ok(()) => Ok(()),
        Err(_) => office.reserve(batch),
    }
}

/// Adopts a batch, again if memory runs out. It must pass.
fn adopt_at_last(office: &mut Office, batch: &Batch) -> Result<(), Fail> {
    reserve_at_last(office, batch)?;
    let adopted = match office.adopt(batch) {
        Ok(adopted) => adopted,
        Err(_) => office.adopt(batch)?,
    };
    is(adopted, "a batch does not pass")
}

/// What an office shows. It is asked again if memory runs out.
fn shown_at_last(office: &mut Office, request: &Request) -> Result<Shown, Memory>
    requires view { IsView request.now }
{
    match office.ask(request) {
        Ok(shown) => Ok(shown),
        Err(_) => office.ask(request),
    }
}

/// Checks what an office shows.
fn shows(alloc: Global, office: &mut Office, view: &str, want: &str) -> Result<(), Fail> {
    let request = request(alloc, view)?;
    let shown = shown_at_last(office, &request)?;
    same(view, &text_of(alloc, &shown)?.as_str(), &want)
}

/// Views before the late batches, with their texts.
const BEFORE: [(&str, &str); 2] = [
    (
        "percent 1 17 2024-07-31",
        "percent 1 17 leaking 0 monitored 0 not good not skipped\n",
    ),
    (
        "percent 1 16 2024-07-31",
        "percent 1 16 leaking 1 monitored 1 not good not skipped\n",
    ),
];

/// The same views and others, after the late batches.
const AFTER: [(&str, &str); 4] = [
    (
        "percent 1 17 2024-07-31",
        "percent 1 17 leaking 1 monitored 1 not good not skipped\n",
    ),
    (
        "percent 1 16 2024-07-31",
        "percent 1 16 leaking 1 monitored 2 not good not skipped\n",
    ),
    (
        "percent 1 16 2024-03-31",
        "percent 1 16 leaking 1 monitored 2 not good not skipped\n",
    ),
    (
        "tags 1 2024-07-31",
        "tags 1 2024-07-31\n\
         1 detected 2024-02-20 attempt 2024-02-25 - repair 2024-06-14 - tagged\nend 1\n",
    ),
];

/// Checks what an office shows in some views.
fn shows_all(alloc: Global, office: &mut Office, views: &[(&str, &str)]) -> Result<(), Fail> {
    for (view, want) in views {
        shows(alloc, office, view, want)?;
    }
    Ok(())
}

/// Adopts the batches from a place to before another.
fn adopt_some(office: &mut Office, batches: &[Batch], from: usize, to: usize) -> Result<(), Fail> {
    for (place, batch) in batches.iter().enumerate() {
        if place >= from && place < to {
            adopt_at_last(office, batch)?;
        }
    }
    Ok(())
}

#[test]
fn a_view_that_ran_out_of_memory_is_shown_when_asked_again(rt: HostRuntime) -> Result<(), Fail> {
    let alloc = rt.alloc();
    let batches = all_batches(alloc)?;
    let mut office = Office::new(alloc);
    adopt_some(&mut office, &batches, 0, 5)?;
    shows_all(alloc, &mut office, &BEFORE)?;
    adopt_some(&mut office, &batches, 5, 7)?;
    shows_all(alloc, &mut office, &AFTER)
}
