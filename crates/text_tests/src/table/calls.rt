//! Random calls of both filings, compared with a list that the test keeps.

ghost use Rattle.std.specs.Prelude.{◌≡◌, ◌<◌, Some};

use fact_kinds::Memory;
use ldar_days::Day;
use ldar_law::{Cells, Filed, Items, MonthCells};
use report_filing::{Filing, FilingAnswer, FilingCall, FilingFault, MapFiling, ask_each};
use report_table::{InMemory, TableFiling};
use std::alloc::Global;
use std::test::Fail;
use test_kit::{day, is};

/// The number of calls in a round, and the number of rounds.
const CALLS: u32 = 20;

const ROUNDS: u32 = 100;

/// The place of a report's number of late repairs in March.
const LATE_IN_MARCH: usize = 31;

/// Pseudo-random numbers, the same in each run.
#[derive(Drop)]
struct Numbers {
    state: u64,
}

impl Numbers {
    /// The next number, below a limit.
    fn below(&mut self, limit: u32) -> u32
        requires { 0 < limit }
        ensures in_range { result < limit }
    {
        self.state = self
            .state
            .wrapping_mul(6_364_136_223_846_793_005)
            .wrapping_add(1_442_695_040_888_963_407);
        (self.state / 8_589_934_592 % u64::from(limit)) as u32
    }
}

/// What the test keeps about a report on file.
#[derive(Clone, Copy, Debug, PartialEq, Eq)]
struct Known {
    unit: u8,
    half: u16,
    revision: u32,
    day: Day,
    late: u32,
}

fn late_in(cells: &Cells) -> u32 {
    cells
        .months
        .as_slice()
        .get(LATE_IN_MARCH)
        .copied()
        .unwrap_or(0)
}

fn known_of(filed: &Filed) -> Known {
    Known {
        unit: filed.unit,
        half: filed.half,
        revision: filed.revision,
        day: filed.day,
        late: late_in(&filed.cells),
    }
}

/// The number of known revisions of a unit's half.
fn count_of(known: &[Known], unit: u8, half: u16) -> usize {
    known
        .iter()
        .filter(|it| it.unit == unit && it.half == half)
        .count()
}

/// The known revision of this number.
fn one_of(known: &[Known], unit: u8, half: u16, revision: usize) -> Option<Known> {
    known
        .iter()
        .find(|it| it.unit == unit && it.half == half && it.revision as usize == revision)
        .copied()
}

/// Whether the report that was found is the known one.
fn is_found(found: &Option<Filed>, want: Option<Known>) -> bool {
    match found {
        Some(filed) => Some(known_of(filed)) == want,
        None => want.is_none(),
    }
}

/// Whether the answer to a call agrees with the list. A report that was filed is added to the list; a call that failed changes nothing.
fn is_answered(
    known: &mut Vec<Known>,
    call: &FilingCall,
    answer: &FilingAnswer,
) -> Result<bool, Memory> {
    match (call, answer) {
        (
            FilingCall::Put {
                unit,
                half,
                day,
                cells,
            },
            FilingAnswer::Put { revision },
        ) => {
            let count = count_of(known, *unit, *half);
            known.push(Known {
                unit: *unit,
                half: *half,
                revision: *revision,
                day: *day,
                late: late_in(cells),
            })?;
            Ok(*revision as usize == count.saturating_add(1))
        }
        (FilingCall::Latest { unit, half }, FilingAnswer::Found(found)) => {
            let last = count_of(known, *unit, *half);
            Ok(is_found(found, one_of(known, *unit, *half, last)))
        }
        (
            FilingCall::Revision {
                unit,
                half,
                revision,
            },
            FilingAnswer::Found(found),
        ) => Ok(is_found(found, one_of(known, *unit, *half, *revision as usize))),
        (_, FilingAnswer::Fault(_)) => Ok(true),
        _ => Ok(false),
    }
}

/// One of six pairs of a unit and a half. Two of them have the same numbers in opposite order.
fn place(number: u32) -> (u8, u16) {
    match number {
        0 => (1, 8),
        1 => (8, 1),
        2 => (1, 9),
        3 => (2, 8),
        4 => (255, 65_535),
        _ => (0, 0),
    }
}

fn day_of(number: u32) -> Result<Day, Fail> {
    match number {
        0 => day("2024-03-31"),
        1 => day("2024-02-29"),
        _ => day("2008-01-01"),
    }
}

fn cells_of(alloc: Global, late: u32) -> Cells {
    let mut months = [0; 36];
    months[LATE_IN_MARCH] = late;
    Cells {
        months: MonthCells::new(months),
        delays: Items::new(Vec::new(alloc)),
        stops: Items::new(Vec::new(alloc)),
    }
}

fn call_of(alloc: Global, numbers: &mut Numbers) -> Result<FilingCall, Fail> {
    let (unit, half) = place(numbers.below(6));
    let call = match numbers.below(5) {
        0 | 1 => FilingCall::Put {
            unit,
            half,
            day: day_of(numbers.below(3))?,
            cells: cells_of(alloc, numbers.below(1_000)),
        },
        2 => FilingCall::Latest { unit, half },
        _ => FilingCall::Revision {
            unit,
            half,
            revision: numbers.below(40),
        },
    };
    Ok(call)
}

fn calls_of(alloc: Global, numbers: &mut Numbers) -> Result<Vec<FilingCall>, Fail> {
    let mut calls = Vec::new(alloc);
    for _ in 0..CALLS {
        calls.push(call_of(alloc, numbers)?)?;
    }
    Ok(calls)
}

/// The number of errors among these answers.
fn faults_in(answers: &[FilingAnswer]) -> usize {
    answers
        .iter()
        .filter(|it| matches!(it, FilingAnswer::Fault(_)))
        .count()
}

/// Makes a round of calls. Returns the number of those that failed.
fn round<F: Filing>(
    alloc: Global,
    filing: &mut F,
    numbers: &mut Numbers,
    known: &mut Vec<Known>,
) -> Result<usize, Fail> {
    let calls = calls_of(alloc, numbers)?;
    let answers = ask_each(alloc, filing, &calls)?;
    is(answers.len() == calls.len(), "an answer is missing")?;
    for (call, answer) in calls.iter().zip(&answers) {
        is(is_answered(known, call, answer)?, "another answer")?;
    }
    Ok(faults_in(&answers))
}

/// A filing in memory that runs out of memory now and then.
#[derive(Drop)]
struct Refused {
    kept: MapFiling,
    numbers: Numbers,
}

impl Refused {
    /// Whether the next call runs out of memory.
    fn is_refused(&mut self) -> bool
        ensures unchanged { self.new.kept ≡ self.old.kept }
    {
        self.numbers.below(9) == 0
    }
}

impl Filing for Refused {
    ghost on_file = { λ f. Some f.kept };

    ghost faults = { λ f. 0 };

    fn latest(&mut self, alloc: Global, unit: u8, half: u16) -> Result<Option<Filed>, FilingFault> {
        let _kept = self.kept.as_slice();
        if self.is_refused() {
            return Err(FilingFault::Memory);
        }
        self.kept.latest(alloc, unit, half)
    }

    fn revision(
        &mut self,
        alloc: Global,
        unit: u8,
        half: u16,
        revision: u32,
    ) -> Result<Option<Filed>, FilingFault> {
        let _kept = self.kept.as_slice();
        if self.is_refused() {
            return Err(FilingFault::Memory);
        }
        self.kept.revision(alloc, unit, half, revision)
    }

    fn put(&mut self, alloc: Global, filed: &Filed) -> Result<(), FilingFault> {
        if self.is_refused() {
            return Err(FilingFault::Memory);
        }
        self.kept.put(alloc, filed)
    }
}

#[test]
fn a_map_answers_random_calls(rt: HostRuntime) -> Result<(), Fail> {
    let alloc = rt.alloc();
    let mut filing = Refused {
        kept: MapFiling::new(alloc),
        numbers: Numbers { state: 2 },
    };
    let mut numbers = Numbers { state: 1 };
    let mut known = Vec::new(alloc);
    let mut faults: usize = 0;
    for _ in 0..ROUNDS {
        faults = faults.saturating_add(round(alloc, &mut filing, &mut numbers, &mut known)?);
    }
    is(
        faults > 100 && known.len() > 400,
        "too few calls failed or filed",
    )
}

/// The limit on the steps of a round; in most rounds there is no limit.
fn limit_of(numbers: &mut Numbers) -> Option<u64> {
    match numbers.below(4) {
        0 => Some(u64::from(numbers.below(6))),
        _ => None,
    }
}

#[test]
fn a_table_answers_random_calls(rt: HostRuntime) -> Result<(), Fail> {
    let alloc = rt.alloc();
    let mut filing = TableFiling::new(InMemory::new());
    let mut numbers = Numbers { state: 1 };
    let mut known = Vec::new(alloc);
    let mut faults: usize = 0;
    for _ in 0..ROUNDS {
        let steps = limit_of(&mut numbers);
        filing.set_step_limit(steps);
        let failed = round(alloc, &mut filing, &mut numbers, &mut known)?;
        is(
            steps.is_some() || failed == 0,
            "a call failed without a limit",
        )?;
        faults = faults.saturating_add(failed);
    }
    is(
        faults > 100 && known.len() > 400,
        "too few calls failed or filed",
    )
}
