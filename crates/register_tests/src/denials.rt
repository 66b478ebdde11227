ghost use Rattle.std.specs.Prelude.{◌≤◌};

use crate::denials::short_facts::{On, ShortFact, facts_of};
use crate::denials::small_offices::{register_of, small_register, unit_of_valves};
use batch_rules::verdict;
use component_register::Register;
use fact_kinds::{Batch, Designation, Kind, Service, Sort};
use ldar_law::Verdict;
use std::alloc::Global;
use std::test::Fail;
use test_kit::is;

mod short_facts;
mod small_offices;

/// The verdict on a batch of these facts from a handheld.
fn verdict_of(
    alloc: Global,
    register: &Register,
    held: u64,
    handheld: u16,
    short_facts: &[On],
) -> Result<Verdict, Fail>
    requires { held ≤ 8_000_000 }
{
    let facts = facts_of(alloc, short_facts)?;
    match Batch::new(handheld, 2, facts) {
        Some(batch) => Ok(verdict(register, held, &batch)),
        None => Err(Fail::from("a batch")),
    }
}

/// The case's name, the handheld, the facts, and the expected fact and rule of the denial, or 0 and 0 if the batch passes.
type Row<'a> = (&'a str, u16, [On; 3], u16, u8);

/// The expected verdict of a row.
fn wanted(row: &Row) -> Verdict {
    if row.3 == 0 {
        return Verdict::Pass;
    }
    Verdict::Denied {
        fact: row.3,
        rule: row.4,
    }
}

/// Checks the verdict on the batch of a row.
fn check(alloc: Global, register: &Register, row: &Row) -> Result<(), Fail> {
    let found = verdict_of(alloc, register, 200, row.1, &row.2)?;
    is(found == wanted(row), row.0)
}

/// Checks the verdict of each row.
fn check_each(alloc: Global, register: &Register, rows: &[Row]) -> Result<(), Fail> {
    for row in rows {
        check(alloc, register, row)?;
    }
    Ok(())
}

/// 2024-02-20; the next number is the day after it.
const DAY: u32 = 19_773;

const NEXT: u32 = 19_774;

/// No fact, since there is no such day.
const NONE: On = (0, ShortFact::Seen(0));

/// A reading of valve 1.
const LOOK: On = (DAY, ShortFact::Read(1, 1, 1));

/// Valve 40 is entered.
const NEW: On = (DAY, ShortFact::Entered(40, Kind::Valve, Service::Gas));

/// A reading of it.
const READ: On = (DAY, ShortFact::Read(40, 1, 1));

/// A reading of it without an operator.
const UNSIGNED: On = (DAY, ShortFact::Read(40, 1, 0));

/// Valve 1 is in vacuum service, from this day on or from the next.
const VACUUM: On = (
    DAY,
    ShortFact::Classed(1, Service::Vacuum, Designation::Plain),
);

const VACUUM_NEXT: On = (
    NEXT,
    ShortFact::Classed(1, Service::Vacuum, Designation::Plain),
);

/// Pump 5 is in service for under 300 hours.
const UNDER_300: On = (
    DAY,
    ShortFact::Classed(5, Service::Under300, Designation::Plain),
);

const COMPONENTS: [Row; 20] = [
    (
        "unknown and unsigned, before a release",
        7,
        [UNSIGNED, (DAY, ShortFact::Released(1)), NONE],
        1,
        1,
    ),
    ("entered after it", 0, [READ, NEW, NONE], 1, 1),
    ("entered before it", 0, [NEW, READ, NONE], 0, 0),
    ("vacuum", 0, [VACUUM, LOOK, NONE], 2, 2),
    (
        "vacuum from the day after",
        0,
        [VACUUM_NEXT, LOOK, NONE],
        0,
        0,
    ),
    (
        "vacuum after it in the batch",
        0,
        [LOOK, VACUUM, NONE],
        0,
        0,
    ),
    (
        "under 300 hours",
        0,
        [UNDER_300, (DAY, ShortFact::Seen(5)), NONE],
        2,
        3,
    ),
    (
        "another under 300 hours",
        0,
        [UNDER_300, (DAY, ShortFact::Seen(6)), NONE],
        0,
        0,
    ),
    ("no operator", 0, [NEW, UNSIGNED, NONE], 2, 4),
    (
        "no instrument",
        7,
        [(DAY, ShortFact::Read(1, 0, 1)), NONE, NONE],
        1,
        4,
    ),
    ("instrument and operator", 7, [LOOK, NONE, NONE], 0, 0),
    (
        "a valve seen",
        7,
        [(DAY, ShortFact::Seen(1)), NONE, NONE],
        1,
        5,
    ),
    (
        "a pump in heavy liquid seen",
        7,
        [(DAY, ShortFact::Seen(7)), NONE, NONE],
        1,
        5,
    ),
    (
        "a pump seen",
        7,
        [(DAY, ShortFact::Seen(5)), NONE, NONE],
        0,
        0,
    ),
    (
        "a sensor at a pump",
        7,
        [(DAY, ShortFact::Indicated(5, Sort::Sensor)), NONE, NONE],
        1,
        6,
    ),
    (
        "a sensor at a compressor",
        7,
        [(DAY, ShortFact::Indicated(9, Sort::Sensor)), NONE, NONE],
        0,
        0,
    ),
    (
        "a release of a valve",
        7,
        [(DAY, ShortFact::Released(1)), NONE, NONE],
        1,
        7,
    ),
    (
        "a release",
        7,
        [(DAY, ShortFact::Released(8)), NONE, NONE],
        0,
        0,
    ),
    (
        "evidence at a compressor",
        7,
        [(DAY, ShortFact::Indicated(9, Sort::Evidence)), NONE, NONE],
        1,
        8,
    ),
    (
        "evidence at a pump in heavy liquid",
        7,
        [(DAY, ShortFact::Indicated(7, Sort::Evidence)), NONE, NONE],
        0,
        0,
    ),
];

#[test]
fn rules_on_components_deny_and_let_pass(rt: HostRuntime) -> Result<(), Fail> {
    let register = small_register(rt.alloc())?;
    check_each(rt.alloc(), &register, &COMPONENTS)
}

/// 2024-06-10, and the first day of a quarter of unit 1, 2024-07-01.
const SOME: u32 = 19_884;

const QUARTER: u32 = 19_905;

const DELAYS: [Row; 11] = [
    (
        "purge of a pump",
        7,
        [(DAY, ShortFact::Delayed(5, 3, 9, SOME)), NONE, NONE],
        1,
        9,
    ),
    (
        "purge of a valve",
        7,
        [(DAY, ShortFact::Delayed(1, 3, 9, SOME)), NONE, NONE],
        0,
        0,
    ),
    (
        "dual seal of a valve",
        7,
        [(DAY, ShortFact::Delayed(1, 4, 9, SOME)), NONE, NONE],
        1,
        10,
    ),
    (
        "dual seal of a pump",
        7,
        [(DAY, ShortFact::Delayed(5, 4, 9, SOME)), NONE, NONE],
        0,
        0,
    ),
    (
        "stock for a pump",
        7,
        [(DAY, ShortFact::Delayed(5, 5, 9, SOME)), NONE, NONE],
        1,
        11,
    ),
    (
        "stock for a valve",
        7,
        [(DAY, ShortFact::Delayed(1, 5, 9, SOME)), NONE, NONE],
        0,
        0,
    ),
    (
        "shutdown without a signer",
        7,
        [(DAY, ShortFact::Delayed(1, 1, 0, SOME)), NONE, NONE],
        1,
        12,
    ),
    (
        "shutdown with a signer",
        7,
        [(DAY, ShortFact::Delayed(1, 1, 9, SOME)), NONE, NONE],
        0,
        0,
    ),
    (
        "isolated without a signer",
        7,
        [(DAY, ShortFact::Delayed(1, 2, 0, SOME)), NONE, NONE],
        0,
        0,
    ),
    (
        "isolated with no day",
        7,
        [(DAY, ShortFact::Delayed(1, 2, 9, 0)), NONE, NONE],
        1,
        13,
    ),
    (
        "withdrawn with no day",
        7,
        [(DAY, ShortFact::Delayed(1, 0, 0, 0)), NONE, NONE],
        0,
        0,
    ),
];

const ELECTIONS: [Row; 6] = [
    (
        "89 days of notice",
        0,
        [(QUARTER, ShortFact::Elected(1, 1, 19_816)), NONE, NONE],
        1,
        14,
    ),
    (
        "90 days of notice",
        0,
        [(QUARTER, ShortFact::Elected(1, 1, 19_815)), NONE, NONE],
        0,
        0,
    ),
    (
        "given up without notice",
        0,
        [(QUARTER, ShortFact::Elected(1, 0, QUARTER)), NONE, NONE],
        0,
        0,
    ),
    (
        "the second day of a quarter",
        0,
        [(19_906, ShortFact::Elected(1, 1, 19_815)), NONE, NONE],
        1,
        20,
    ),
    (
        "before the first quarter",
        0,
        [(18_293, ShortFact::Elected(1, 0, DAY)), NONE, NONE],
        1,
        20,
    ),
    (
        "unit not entered",
        0,
        [(QUARTER, ShortFact::Elected(2, 1, 19_815)), NONE, NONE],
        1,
        17,
    ),
];

#[test]
fn rules_on_delays_and_elections_deny_and_let_pass(rt: HostRuntime) -> Result<(), Fail> {
    let register = small_register(rt.alloc())?;
    check_each(rt.alloc(), &register, &DELAYS)?;
    check_each(rt.alloc(), &register, &ELECTIONS)
}

/// Unit 2, with its shutdown, a compressor, and a reading on the last day.
const COKER: On = (DAY, ShortFact::Unit(2));

const SHUTDOWN: On = (DAY, ShortFact::Shut(2));

const COMPRESSOR: On = (
    DAY,
    ShortFact::Entered(20, Kind::Compressor, Service::Light),
);

const LAST: On = (46_751, ShortFact::Read(1, 1, 1));

const OWN: [Row; 14] = [
    (
        "retired by a handheld",
        7,
        [(DAY, ShortFact::Retired(1)), NONE, NONE],
        1,
        16,
    ),
    (
        "retired by the office",
        0,
        [(DAY, ShortFact::Retired(1)), NONE, NONE],
        0,
        0,
    ),
    (
        "a shutdown of an unknown unit",
        0,
        [SHUTDOWN, NONE, NONE],
        1,
        17,
    ),
    (
        "of a unit entered before it",
        0,
        [COKER, SHUTDOWN, NONE],
        0,
        0,
    ),
    (
        "a unit again",
        0,
        [(DAY, ShortFact::Unit(1)), NONE, NONE],
        1,
        18,
    ),
    ("a unit twice in a batch", 0, [COKER, COKER, NONE], 2, 18),
    (
        "a component again",
        0,
        [
            (DAY, ShortFact::Entered(1, Kind::Pump, Service::Light)),
            NONE,
            NONE,
        ],
        1,
        18,
    ),
    ("the last day", 7, [LAST, NONE, NONE], 0, 0),
    (
        "a day too late",
        7,
        [LAST, (46_752, ShortFact::Read(1, 1, 1)), NONE],
        2,
        19,
    ),
    (
        "a day too late for an election",
        0,
        [(46_752, ShortFact::Elected(1, 0, DAY)), NONE, NONE],
        1,
        19,
    ),
    (
        "a compressor in light liquid",
        0,
        [COMPRESSOR, NONE, NONE],
        1,
        21,
    ),
    (
        "the same from a handheld",
        7,
        [COMPRESSOR, NONE, NONE],
        1,
        16,
    ),
    (
        "a pump with no emissions",
        0,
        [
            (DAY, ShortFact::Classed(5, Service::Light, Designation::Nde)),
            NONE,
            NONE,
        ],
        0,
        0,
    ),
    (
        "a pump difficult to monitor",
        0,
        [
            (
                DAY,
                ShortFact::Classed(5, Service::Light, Designation::Difficult),
            ),
            NONE,
            NONE,
        ],
        1,
        21,
    ),
];

#[test]
fn the_office_s_own_rules_deny_and_let_pass(rt: HostRuntime) -> Result<(), Fail> {
    let register = small_register(rt.alloc())?;
    check_each(rt.alloc(), &register, &OWN)
}

/// Checks the verdict on a batch of one fact, when the office has this many facts.
fn check_with_held(
    alloc: Global,
    register: &Register,
    held: u64,
    short_fact: On,
    want: Verdict,
) -> Result<(), Fail>
    requires { held ≤ 8_000_000 }
{
    let found = verdict_of(alloc, register, held, 7, &[short_fact])?;
    is(found == want, "the facts that are held")
}

#[test]
fn there_are_at_most_8_000_000_facts(rt: HostRuntime) -> Result<(), Fail> {
    let register = small_register(rt.alloc())?;
    let full = Verdict::Full { facts: 8_000_001 };
    let denied = Verdict::Denied { fact: 1, rule: 5 };
    let seen = (DAY, ShortFact::Seen(1));
    check_with_held(rt.alloc(), &register, 8_000_000, LAST, full)?;
    check_with_held(rt.alloc(), &register, 7_999_999, LAST, Verdict::Pass)?;
    check_with_held(rt.alloc(), &register, 8_000_000, seen, denied)
}

/// 2024-01-01; the next number is the day after it.
const YEAR: u32 = 19_723;

const YEAR_NEXT: u32 = 19_724;

/// Valves 1 to 3 become difficult to monitor, and a valve 40 and a pump 40 are entered in 2020.
const FIRST: On = (
    YEAR,
    ShortFact::Classed(1, Service::Gas, Designation::Difficult),
);

const SECOND: On = (
    YEAR,
    ShortFact::Classed(2, Service::Gas, Designation::Difficult),
);

const THIRD: On = (
    YEAR,
    ShortFact::Classed(3, Service::Gas, Designation::Difficult),
);

const VALVE: On = (18_276, ShortFact::Entered(40, Kind::Valve, Service::Gas));

const PUMP: On = (18_276, ShortFact::Entered(40, Kind::Pump, Service::Light));

const OF_A_HUNDRED: [Row; 5] = [
    ("two of a hundred", 0, [FIRST, SECOND, NONE], 0, 0),
    ("three of a hundred", 0, [FIRST, SECOND, THIRD], 1, 15),
    (
        "the third from the day after",
        0,
        [
            FIRST,
            SECOND,
            (
                YEAR_NEXT,
                ShortFact::Classed(3, Service::Gas, Designation::Difficult),
            ),
        ],
        3,
        15,
    ),
    (
        "to and fro between two days",
        0,
        [
            FIRST,
            (
                YEAR_NEXT,
                ShortFact::Classed(2, Service::Gas, Designation::Difficult),
            ),
            THIRD,
        ],
        2,
        15,
    ),
    (
        "two of 99",
        0,
        [FIRST, SECOND, (YEAR, ShortFact::Retired(3))],
        0,
        0,
    ),
];

const OF_33: [Row; 5] = [
    ("one of 33", 0, [FIRST, NONE, NONE], 1, 15),
    (
        "one of 34, the last behind it",
        0,
        [FIRST, VALVE, NONE],
        0,
        0,
    ),
    ("a pump behind it", 0, [FIRST, PUMP, NONE], 1, 15),
    (
        "a component twice, first a pump",
        0,
        [FIRST, PUMP, VALVE],
        1,
        15,
    ),
    (
        "a component twice, first a valve",
        0,
        [FIRST, VALVE, PUMP],
        3,
        18,
    ),
];

/// Checks the verdict of each row, over a unit with this many valves.
fn check_with_valves(alloc: Global, count: u16, rows: &[Row]) -> Result<(), Fail>
    requires { count ≤ 400 }
{
    let facts = unit_of_valves(alloc, count)?;
    let register = register_of(alloc, &facts)?;
    check_each(alloc, &register, rows)
}

#[test]
fn three_valves_in_a_hundred_are_too_many(rt: HostRuntime) -> Result<(), Fail> {
    check_with_valves(rt.alloc(), 100, &OF_A_HUNDRED)?;
    check_with_valves(rt.alloc(), 33, &OF_33)
}
