use crate::asked::{Row, shown, shows};
use crate::histories::{adopt, batches};
use crate::words::joined;
use fact_kinds::Batch;
use memory_office::Office;
use std::alloc::{AllocError, Global};
use std::process::Abort;
use std::test::Fail;
use test_kit::same;

/// Unit 2 with valve 30.
const COKER: &str = "0: 2024-01-15 0 unit 2 COKER; 2024-01-15 0 valve 30 2 gas\n";

/// Four clean readings of valve 30.
const CLEAN: &str = "7: 2024-02-10 200 precision 500 500 500 500; 2024-02-10 300 calibration 500\
    ; 2024-02-10 600 reading 30 10 0\n\
    7: 2024-03-10 200 precision 500 500 500 500; 2024-03-10 300 calibration 500\
    ; 2024-03-10 600 reading 30 10 0\n\
    7: 2024-04-10 200 precision 500 500 500 500; 2024-04-10 300 calibration 500\
    ; 2024-04-10 600 reading 30 10 0\n\
    7: 2024-07-10 200 precision 500 500 500 500; 2024-07-10 300 calibration 500\
    ; 2024-07-10 600 reading 30 10 0\n";

/// A leak on 2024-04-20 that arrives late.
const LEAK: &str = "7: 2024-04-20 200 precision 500 500 500 500; 2024-04-20 300 calibration 500\
    ; 2024-04-20 600 reading 30 700 0\n";

/// The due list after the leak arrives.
const MISSED: &str = "due 2 2024-09-10\n\
    30 monthly 2024-05-31 missed\n\
    30 monthly 2024-06-30 missed\n\
    30 monthly 2024-08-31 missed\n\
    30 monthly 2024-09-30 open\nend 4\n";

/// The due list before the readings, and after the clean ones arrive.
const SOUND: [Row<'static>; 2] = [
    (
        "",
        "due 2 2024-02-20",
        "",
        "due 2 2024-02-20\n30 monthly 2024-02-29 open\nend 1\n",
    ),
    (CLEAN, "due 2 2024-09-10", "", "due 2 2024-09-10\nend 0\n"),
];

/// What is shown after the leak arrives.
const LEAKING: [Row<'static>; 2] = [
    (LEAK, "due 2 2024-09-10", "", MISSED),
    (
        LEAK,
        "tags 2 2024-09-10",
        "",
        "tags 2 2024-09-10\n\
         30 detected 2024-04-20 attempt 2024-04-25 - repair 2024-05-05 - tagged\nend 1\n",
    ),
];

#[test]
fn a_late_leak_undoes_quarterly_months(rt: HostRuntime) -> Result<(), Fail> {
    shows(&rt, rt.alloc(), &[COKER], &SOUND)?;
    shows(&rt, rt.alloc(), &[COKER, CLEAN], &LEAKING)
}

/// The batches with the unit, the clean readings and the leak.
fn leaking(alloc: Global) -> Result<Vec<Batch>, Fail> {
    let history = joined(alloc, &[COKER, CLEAN, LEAK])?;
    batches(alloc, history.as_str())
}

/// The nth order in which the five batches after the first can arrive, as a list of their places.
fn nth_order(alloc: Global, n: usize) -> Result<Vec<usize>, AllocError> {
    let mut left = vec![in alloc; 1, 2, 3, 4, 5]?;
    let mut order = vec![in alloc; 0]?;
    let mut rest = n;
    while !left.is_empty() {
        let count = left.len();
        order.push(left.remove(rest % count))?;
        rest /= count;
    }
    Ok(order)
}

/// Adopts the batch at a place.
fn adopt_at(office: &mut Office, batches: &[Batch], place: usize) -> Result<(), Fail> {
    match batches.get(place) {
        Some(batch) => adopt(office, batch),
        None => Err(Fail::from("no batch at a place")),
    }
}

/// Adopts batches in an order.
fn adopt_all(office: &mut Office, batches: &[Batch], order: &[usize]) -> Result<(), Fail> {
    for place in order {
        adopt_at(office, batches, *place)?;
    }
    Ok(())
}

/// All views of unit 2 on 2024-09-10.
const VIEWS: [&str; 6] = [
    "due 2 2024-09-10",
    "tags 2 2024-09-10",
    "delays 2 2024-09-10",
    "route 2 2024-09-10 5",
    "percent 2 1 2024-09-10",
    "report 2 1 2024-09-10",
];

/// The texts of all these views.
fn all_shown(alloc: Global, office: &mut Office) -> Result<String, Fail> {
    let mut all = String::new(alloc);
    for view in &VIEWS {
        let text = shown(alloc, office, view)?;
        all.push_str(text.as_str())?;
    }
    Ok(all)
}

/// The texts of all views after the batches arrive in this order.
fn shown_of(alloc: Global, batches: &[Batch], order: &[usize]) -> Result<String, Fail> {
    let mut office = Office::new(alloc);
    adopt_all(&mut office, batches, order)?;
    all_shown(alloc, &mut office)
}

/// Checks that all views show this after the batches arrive in the nth order.
fn shows_alike(
    rt: &impl Abort,
    alloc: Global,
    batches: &[Batch],
    n: usize,
    told: &str,
) -> Result<(), Fail> {
    let order = nth_order(alloc, n)?;
    let other = shown_of(alloc, batches, &order)?;
    if other.as_str() != told {
        panic!(rt; "order {n}: {other:?}, not {told:?}");
    }
    Ok(())
}

#[test]
fn batches_in_any_order_show_the_same(rt: HostRuntime) -> Result<(), Fail> {
    let alloc = rt.alloc();
    let all = leaking(alloc)?;
    let told = shown_of(alloc, &all, &[0, 1, 2, 3, 4, 5])?;
    assert!(rt; told.as_str().starts_with(MISSED));
    for n in 0..120 {
        shows_alike(&rt, alloc, &all, n, told.as_str())?;
    }
    Ok(())
}

/// Whether a batch is adopted again.
fn is_adopted_again(office: &mut Office, batch: &Batch) -> Result<bool, Fail> {
    office.reserve(batch)?;
    Ok(office.adopt(batch)?)
}

/// The due list of 2024-09-10 after room is made for a batch, and after the batch is adopted.
fn due_around(alloc: Global, office: &mut Office, batch: &Batch) -> Result<(String, String), Fail> {
    office.reserve(batch)?;
    let before = shown(alloc, office, "due 2 2024-09-10")?;
    if !office.adopt(batch)? {
        return Err(Fail::from("a batch does not pass"));
    }
    let after = shown(alloc, office, "due 2 2024-09-10")?;
    Ok((before, after))
}

/// The due list of 2024-09-10 after a batch is adopted. It fails if making room changes the list, or if the batch is adopted again.
fn due_behind(
    alloc: Global,
    office: &mut Office,
    batch: &Batch,
    last: &str,
) -> Result<String, Fail> {
    let (before, after) = due_around(alloc, office, batch)?;
    if before.as_str() != last || is_adopted_again(office, batch)? {
        return Err(Fail::from("room"));
    }
    Ok(after)
}

/// The due list of 2024-09-10 after batches are adopted one after the other.
fn due_behind_all(alloc: Global, office: &mut Office, batches: &[Batch]) -> Result<String, Fail> {
    let mut last = String::from_str(alloc, "no such unit")?;
    for batch in batches {
        last = due_behind(alloc, office, batch, last.as_str())?;
    }
    Ok(last)
}

#[test]
fn room_shows_nothing_until_its_batch_is_adopted(rt: HostRuntime) -> Result<(), Fail> {
    let all = leaking(rt.alloc())?;
    let mut office = Office::new(rt.alloc());
    let last = due_behind_all(rt.alloc(), &mut office, &all)?;
    same("the last", &last.as_str(), &MISSED)
}
