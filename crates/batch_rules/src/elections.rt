//! The rules on elections of skip periods (40 CFR 60.483-2a, 60.487a(d)).

ghost use Rattle.std.specs.Prelude.{◌≡◌, ◌≤◌};
ghost use Rattle.ldar_law.specs.Denials as law;
ghost use Rattle.ldar_law.specs.declared.numbers.TheConstants.{LAST_FACT_DAY};
ghost use Rattle.batch_rules.specs.Table.{elected_if_in_time};

use crate::case::Case;
use fact_kinds::FactBody;
use ldar_days::{Day, quarter_first, quarter_of};
use ldar_law::{LAST_FACT_DAY, NOTICE_DAYS};

/// Rule 14 (40 CFR 60.487a(d)): skip periods are elected with less than 90 days' notice.
pub fn notified_late(case: &Case) -> bool
    ensures value { result ≡ law.notified_late case.now }
{
    match *case.body() {
        FactBody::Election { mode, notified, .. } => {
            mode >= 1 && case.day().number() < notified.number() + NOTICE_DAYS
        }
        _ => false,
    }
}

/// Whether the day is the first of a quarter.
fn begins_quarter(startup: Day, day: Day) -> bool
    requires in_time { day ≤ LAST_FACT_DAY }
    ensures value { result ≡ law.begins_quarter startup day }
{
    // A unit whose startup is after the last day of a fact has no quarter by then.
    if startup.number() > LAST_FACT_DAY {
        return false;
    }
    match quarter_of(startup, day.month()) {
        Some(quarter) => quarter_first(startup, quarter) == day,
        None => false,
    }
}

/// Rule 20 (our own): an election does not begin with a quarter of its unit. The rule does not judge a day that rule 19
/// denies.
pub fn elected_within_a_quarter(case: &Case) -> bool
    ensures value { result ≡ elected_if_in_time case.now }
{
    if case.day().number() > LAST_FACT_DAY {
        return false;
    }
    match *case.body() {
        FactBody::Election { unit, .. } => match case.known().unit(unit) {
            Some(entry) => !begins_quarter(entry.startup, case.day()),
            None => false,
        },
        _ => false,
    }
}
