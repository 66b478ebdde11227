//! Random batches, each followed by a random view, which must be that of a fresh office over the same batches.

use crate::asked::shown;
use crate::dice::{Choice, Dice, told};
use crate::histories::{CRUDE, PASSES, adopt, batch, batches};
use crate::words::joined;
use fact_kinds::Batch;
use memory_office::Office;
use std::alloc::{AllocError, Global};
use std::process::Abort;
use std::test::Fail;

/// Unit 2 with three valves and two pumps. Its quarters begin in April 2024.
const COKER: &str =
    "0: 2024-01-15 0 unit 2 COKER; 2024-01-15 0 valve 20 2 gas; 2024-01-15 0 valve 21 2 light\
    ; 2024-01-15 0 valve 22 2 heavy; 2024-01-15 0 pump 23 2 light; 2024-01-15 0 pump 24 2 heavy\n";

/// The words in capitals of the batches below.
const WORDS: [Choice<'static>; 17] = [
    (
        "ANY",
        &[
            "1", "2", "3", "4", "5", "6", "7", "8", "9", "20", "21", "22", "23", "24", "40",
        ],
    ),
    ("VALVE", &["1", "1", "2", "3", "4", "20", "20", "21", "22"]),
    ("PUMP", &["5", "5", "6", "23"]),
    ("NEW", &["40", "41", "42", "43", "44", "45"]),
    ("UNIT", &["1", "1", "2"]),
    (
        "PPM",
        &[
            "10", "20", "440", "470", "499", "500", "620", "700", "2000", "5000", "10000",
        ],
    ),
    ("LOW", &["10", "20", "440", "470"]),
    ("GAS", &["500", "500", "2000", "2500"]),
    ("TEST", &["400", "440", "450", "500"]),
    (
        "MINUTE",
        &["250", "300", "400", "600", "601", "650", "700", "900"],
    ),
    ("BY", &["1", "1", "2"]),
    ("SEEN", &["dry", "dry", "drips", "designated"]),
    (
        "GROUND",
        &["a", "a", "a", "b", "e", "withdrawn", "withdrawn"],
    ),
    ("FLUID", &["gas", "light", "heavy"]),
    ("LONG", &["1", "14", "30"]),
    ("FIRST", &["2024-04-01", "2024-07-01", "2024-10-01"]),
    ("MODE", &["0", "1", "1"]),
];

/// The days of facts.
const DAYS: [&str; 21] = [
    "2023-11-30",
    "2024-01-03",
    "2024-02-01",
    "2024-02-05",
    "2024-02-20",
    "2024-02-22",
    "2024-02-29",
    "2024-03-01",
    "2024-03-06",
    "2024-03-07",
    "2024-04-02",
    "2024-04-20",
    "2024-05-07",
    "2024-05-20",
    "2024-06-01",
    "2024-06-05",
    "2024-06-20",
    "2024-07-01",
    "2024-08-20",
    "2024-10-10",
    "2024-11-20",
];

/// The batches, without their numbers. DAY stands for the same day in all facts of a batch.
const BATCHES: [&str; 28] = [
    "7: DAY 600 reading ANY PPM 0 by BY",
    "7: DAY MINUTE reading VALVE PPM 0 by BY",
    "8: DAY MINUTE reading VALVE LOW 0 by BY ; DAY MINUTE reading PUMP PPM 0 by BY",
    "8: DAY MINUTE reading VALVE LOW 0 follow-up by BY",
    "7: DAY 300 calibration 500 by 1 ; DAY 600 reading VALVE PPM 0 by 1 ; DAY 601 reading VALVE PPM 0 by 1",
    "7: DAY 300 calibration 500 by 2 ; DAY 600 reading VALVE PPM 0 by 2 ; DAY 601 reading ANY PPM 0 by 2",
    "7: DAY 300 calibration 500 by 1 ; DAY 600 reading 1 PPM 0 by 1 ; DAY 700 drift 500 TEST TEST TEST by 1",
    "7: DAY 300 calibration GAS by BY",
    "7: DAY MINUTE calibration GAS by BY",
    "7: DAY 100 precision 500 500 500 TEST by BY",
    "7: DAY 100 precision 500 TEST 500 500 by BY",
    "7: DAY MINUTE drift 500 TEST TEST TEST by BY",
    "7: DAY 800 drift 500 440 440 440 by BY",
    "8: DAY MINUTE visual PUMP SEEN",
    "8: DAY MINUTE attempt VALVE",
    "8: DAY MINUTE attempt ANY",
    "8: DAY MINUTE attempt 9 complete",
    "8: DAY MINUTE delay VALVE GROUND 9 2024-06-10",
    "8: DAY MINUTE delay ANY GROUND 9 2024-12-10",
    "8: DAY MINUTE release 8",
    "8: DAY MINUTE indication 9 sensor ; DAY MINUTE indication 7 evidence",
    "8: DAY MINUTE indication 7 evidence gone",
    "0: DAY 0 class VALVE FLUID",
    "0: DAY 0 class VALVE gas nde",
    "0: DAY 0 retire ANY",
    "0: DAY 0 shutdown UNIT LONG",
    "0: FIRST 0 election UNIT MODE 2023-09-01",
    "0: DAY 0 valve NEW UNIT FLUID",
];

/// The words in capitals of the views below.
const ASKED: [Choice<'static>; 5] = [
    ("UNIT", &["1", "1", "1", "2", "3"]),
    (
        "DAY",
        &[
            "2024-03-31",
            "2024-03-31",
            "2024-06-30",
            "2024-06-30",
            "2024-07-31",
            "2024-12-31",
            "2024-04-19",
            "2025-03-31",
        ],
    ),
    ("STOPS", &["0", "2", "5"]),
    (
        "QUARTER",
        &["1", "16", "16", "17", "17", "18", "2", "3", "20", "99"],
    ),
    ("HALF", &["8", "9", "1", "2"]),
];

/// The views.
const VIEWS: [&str; 7] = [
    "due UNIT DAY",
    "tags UNIT DAY",
    "delays UNIT DAY",
    "route UNIT DAY STOPS",
    "percent UNIT QUARTER DAY",
    "percent UNIT QUARTER DAY",
    "report UNIT HALF DAY",
];

/// A random batch with this number.
fn batch_of(alloc: Global, dice: &mut Dice, number: u32) -> Result<Batch, Fail> {
    let day = dice.one_of(&DAYS)?;
    let text = dice.one_of(&BATCHES)?;
    let dated = told(alloc, dice, &[("DAY", &[day])], text)?;
    let line = told(alloc, dice, &WORDS, dated.as_str())?;
    batch(alloc, number, line.as_str())
}

/// The text of a random view.
fn view_of(alloc: Global, dice: &mut Dice) -> Result<String, Fail> {
    let text = dice.one_of(&VIEWS)?;
    told(alloc, dice, &ASKED, text)
}

/// The office after it adopts these batches, which was never asked.
fn fresh(alloc: Global, batches: &[Batch]) -> Result<Office, Fail> {
    let mut office = Office::new(alloc);
    for batch in batches {
        adopt(&mut office, batch)?;
    }
    Ok(office)
}

/// The batches that come before the random ones.
fn first_batches(alloc: Global) -> Result<Vec<Batch>, Fail> {
    let history = joined(alloc, &[CRUDE, PASSES, COKER])?;
    batches(alloc, history.as_str())
}

/// Adopts a batch if it passes, and keeps it then.
fn take(office: &mut Office, kept: &mut Vec<Batch>, batch: Batch) -> Result<(), Fail> {
    office.reserve(&batch)?;
    if office.adopt(&batch)? {
        kept.push(batch).map_err(AllocError::from)?;
    }
    Ok(())
}

/// A random life of an office: its seed, the number of batches, and after how many of them the view is compared.
type Life = (u64, u32, u32);

/// Adopts a random batch and asks a random view. Returns the view and what it shows.
fn step(
    alloc: Global,
    dice: &mut Dice,
    office: &mut Office,
    kept: &mut Vec<Batch>,
    number: u32,
) -> Result<(String, String), Fail> {
    let next = batch_of(alloc, dice, number)?;
    take(office, kept, next)?;
    let view = view_of(alloc, dice)?;
    let found = shown(alloc, office, view.as_str())?;
    Ok((view, found))
}

/// Checks one life, and returns how many batches were adopted in it.
fn lives(rt: &impl Abort, alloc: Global, (seed, count, every): Life) -> Result<usize, Fail> {
    let mut dice = Dice::new(seed);
    let mut kept = first_batches(alloc)?;
    let mut office = fresh(alloc, &kept)?;
    let mut wait = 0u32;
    for number in 0..count {
        let (view, found) = step(
            alloc,
            &mut dice,
            &mut office,
            &mut kept,
            number.saturating_add(100),
        )?;
        wait = wait.saturating_add(1);
        if wait >= every {
            wait = 0;
            let want = shown(alloc, &mut fresh(alloc, &kept)?, view.as_str())?;
            if found.as_str() != want.as_str() {
                panic!(rt;
                    "life {seed}, batch {number}, {view}: {found:?}, and {want:?} of a fresh office"
                );
            }
        }
    }
    Ok(kept.len())
}

/// Short lives with each view compared, and a long one.
const LIVES: [Life; 9] = [
    (1, 150, 1),
    (2, 150, 1),
    (3, 150, 1),
    (4, 150, 1),
    (5, 150, 1),
    (6, 150, 1),
    (7, 150, 1),
    (8, 150, 1),
    (9, 1_500, 50),
];

#[test]
fn views_after_random_batches_are_those_of_a_fresh_office(rt: HostRuntime) -> Result<(), Fail> {
    for (seed, count, every) in &LIVES {
        let adopted = lives(&rt, rt.alloc(), (*seed, *count, *every))?;
        assert!(rt; adopted > 75, "life {seed}: {adopted} batches adopted");
    }
    Ok(())
}
