//! Skipped quarters, by the good quarters and the elections.

ghost use Rattle.std.specs.Prelude.{◌≡◌, ◌≤◌};
ghost use Rattle.list_words.specs.Order.{Ascends};
ghost use Rattle.ldar_days.specs.Calendar.{IsDay};
ghost use Rattle.fact_kinds.specs.Facts.{is_earlier};
ghost use Rattle.ldar_law.specs.declared.numbers.TheConstants.{LAST_FACT_DAY};

use crate::words::key;
use ldar_days::Day;
use ldar_law::ElectionEntry;
use skip_periods::{Tally, all_skipped, skipped};
use std::alloc::Global;
use std::fmt::Debug;
use std::process::Abort;
use std::test::Fail;
use test_kit::day;

/// The unit's initial startup, 2020-01-15. Its quarter 1 is April to June 2020.
pub fn startup() -> Day
    ensures { result ≤ LAST_FACT_DAY }
{
    Day::at(18_276)
}

/// Checks that this was found in a case with a number.
pub fn same<T: PartialEq + Debug>(rt: &impl Abort, case: &str, number: u16, found: &T, want: &T) {
    if *found != *want {
        panic!(rt; "{case} {number}: {found:?}, not {want:?}");
    }
}

/// Modes, each with the text of the day from which it is elected.
type Elected<'a> = &'a [(&'a str, u8)];

/// Elections of a mode from a day on.
fn elections_of(alloc: Global, elected: Elected) -> Result<Vec<ElectionEntry>, Fail> {
    let mut elections = Vec::new(alloc);
    for (text, mode) in elected {
        let key = key(day(text)?, 0);
        elections.push(ElectionEntry { key, mode: *mode })?;
    }
    Ok(elections)
}

/// The counts of a quarter.
fn tally(leaking: u32, monitored: u32) -> Tally {
    Tally { leaking, monitored }
}

/// The counts of 20 quarters; these are the good ones.
fn good_quarters(good: &[usize]) -> [Tally; 20] {
    let mut tallies = [tally(3, 100); 20];
    for place in 0..20 {
        if good.contains(&(place + 1)) {
            tallies[place] = tally(2, 100);
        }
    }
    tallies
}

/// Checks whether a quarter with these counts is good.
fn is_good(
    rt: &impl Abort,
    alloc: Global,
    leaking: u32,
    monitored: u16,
    want: bool,
) -> Result<(), Fail> {
    let tallies = [tally(0, 1), tally(leaking, u32::from(monitored))];
    let elections = elections_of(alloc, &[("2020-01-15", 1)])?;
    let found = skipped(&tallies, &elections, startup(), 3);
    same(rt, "monitored", monitored, &found, &want);
    Ok(())
}

#[test]
fn at_most_two_percent_are_good(rt: HostRuntime) -> Result<(), Fail> {
    let alloc = rt.alloc();
    is_good(&rt, alloc, 3, 150, true)?;
    is_good(&rt, alloc, 4, 200, true)?;
    is_good(&rt, alloc, 4, 199, false)?;
    is_good(&rt, alloc, 0, 0, false)
}

/// Checks whether a quarter is skipped, if these of 20 quarters are good.
fn skips(
    rt: &impl Abort,
    alloc: Global,
    good: &[usize],
    elected: Elected,
    quarter: u16,
    want: bool,
) -> Result<(), Fail>
    requires first { 1 ≤ quarter }
    requires last { quarter ≤ 21 }
{
    let tallies = good_quarters(good);
    let elections = elections_of(alloc, elected)?;
    let found = skipped(&tallies, &elections, startup(), quarter);
    same(rt, "quarter", quarter, &found, &want);
    Ok(())
}

#[test]
fn mode_1_skips_a_quarter_after_two_good_ones(rt: HostRuntime) -> Result<(), Fail> {
    let alloc = rt.alloc();
    let elected: Elected = &[("2024-07-01", 1)];
    let two = [16, 17];
    skips(&rt, alloc, &two, elected, 17, false)?;
    skips(&rt, alloc, &two, elected, 18, true)?;
    skips(&rt, alloc, &two, elected, 19, false)?;
    skips(&rt, alloc, &two, elected, 20, false)?;
    skips(&rt, alloc, &[16, 17, 19], elected, 20, true)?;
    skips(&rt, alloc, &[16], elected, 18, false)
}

#[test]
fn mode_3_skips_three_quarters_after_five_good_ones(rt: HostRuntime) -> Result<(), Fail> {
    let alloc = rt.alloc();
    let elected: Elected = &[("2021-07-01", 3)];
    let five = [1, 2, 3, 4, 5];
    skips(&rt, alloc, &five, elected, 5, false)?;
    skips(&rt, alloc, &five, elected, 6, true)?;
    skips(&rt, alloc, &five, elected, 7, true)?;
    skips(&rt, alloc, &five, elected, 8, true)?;
    skips(&rt, alloc, &five, elected, 9, false)?;
    skips(&rt, alloc, &five, elected, 10, false)?;
    skips(&rt, alloc, &[1, 2, 3, 4, 5, 9], elected, 10, true)?;
    skips(&rt, alloc, &[2, 3, 4, 5], elected, 6, false)
}

#[test]
fn a_second_election_ends_the_first(rt: HostRuntime) -> Result<(), Fail> {
    let alloc = rt.alloc();
    let elected: Elected = &[("2021-07-01", 3), ("2021-10-01", 0)];
    let five = [1, 2, 3, 4, 5];
    skips(&rt, alloc, &five, elected, 6, true)?;
    skips(&rt, alloc, &five, elected, 7, false)
}

/// The places, from 1, of the true values.
fn numbers_of(alloc: Global, all: &[bool]) -> Result<Vec<usize>, Fail> {
    let mut numbers = Vec::new(alloc);
    for (place, holds) in all.iter().enumerate() {
        if *holds {
            numbers.push(place.saturating_add(1))?;
        }
    }
    Ok(numbers)
}

/// Checks which of this many quarters are skipped, if these are good.
fn walks(
    rt: &impl Abort,
    alloc: Global,
    good: &[usize],
    elections: &[ElectionEntry],
    count: u16,
    numbers: &[usize],
) -> Result<(), Fail>
    requires ordered { Ascends (λ a b. is_earlier a.key b.key) elections.now }
{
    let tallies = good_quarters(good);
    let all = all_skipped(alloc, &tallies, elections, startup(), count)?;
    same(rt, "quarters", count, &all.len(), &usize::from(count));
    let found = numbers_of(alloc, &all)?;
    same(rt, "skipped of", count, &found.as_slice(), &numbers);
    Ok(())
}

/// An election of a mode from the day with a number on.
fn elected(number: u32, mode: u8) -> ElectionEntry
    requires { IsDay number }
    ensures { result ≡ record { key = record { day = number; minute = 0; handheld = 1; number = 1; index = 0 }; mode = mode } }
{
    ElectionEntry {
        key: key(Day::at(number), 0),
        mode,
    }
}

#[test]
fn a_walk_over_the_quarters_skips_as_each_alone(rt: HostRuntime) -> Result<(), Fail> {
    let alloc = rt.alloc();
    // Mode 3 from 2021-07-01 on, no mode from 2021-10-01 on, and mode 1 from 2024-07-01 on.
    let three = [elected(18_809, 3)];
    let ended = [elected(18_809, 3), elected(18_901, 0)];
    let one = [elected(19_905, 1)];
    let five = [1, 2, 3, 4, 5];
    let six = [1, 2, 3, 4, 5, 9];
    let twice = [6, 7, 8, 10, 11, 12];
    walks(&rt, alloc, &five, &three, 20, &[6, 7, 8])?;
    walks(&rt, alloc, &six, &three, 20, &twice)?;
    walks(&rt, alloc, &five, &ended, 20, &[6])?;
    walks(&rt, alloc, &[16, 17, 19], &one, 20, &[18, 20])?;
    // A unit has up to 368 quarters; none after the last counts is good.
    walks(&rt, alloc, &six, &three, 368, &twice)
}
