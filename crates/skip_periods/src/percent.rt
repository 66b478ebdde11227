ghost use Rattle.std.specs.Prelude.{◌≡◌, ◌≤◌, ◌&&◌, ◌||◌, false, [], ℕ, nat_lt, min, is_none};
ghost use Rattle.list_words.specs.Order.{Ascends};
ghost use Rattle.fact_kinds.specs.Facts.{is_earlier};
ghost use Rattle.fact_kinds.specs.Named.{is_numbered as says_numbered};
ghost use Rattle.ldar_law.specs.Duties as duties;
ghost use Rattle.ldar_law.specs.Percent as law;
ghost use Rattle.ldar_law.specs.declared.numbers.TheConstants.{LAST_FACT_DAY};
ghost use Rattle.skip_periods.specs.Seen.{counts_class, seen_or_missed};

use crate::readings::{has_routine_in, is_found_leaking, is_read};
use fact_kinds::{Class, Key};
use ldar_days::{Day, quarter_of};
use ldar_law::{Equipment, Event, Mark, Regime, is_in_quarter, is_nde_designated, judging_day};

/// Whether a component of this class is a valve that is counted (40 CFR 60.485a(h)).
pub fn is_counted_of(item: &Equipment, class: Class) -> bool
    ensures value { result ≡ counts_class item.now class }
{
    Regime::of(item.kind, class.service).are_valve_rules() && !is_nde_designated(class.designation)
}

/// Whether the component is a valve that is counted in the quarter, on the list of the day.
fn is_counted(
    item: &Equipment,
    classes: &[(Key, Class)],
    startup: Day,
    quarter: u16,
    day: Day,
) -> bool
    requires startup { startup ≤ LAST_FACT_DAY }
    requires quarter { 1 ≤ quarter }
    requires ordered { Ascends (λ a b. is_earlier a.0 b.0) classes.now }
    ensures value { result ≡ law.is_counted item.now classes.now startup [] false quarter day }
{
    let class = item.class_on(classes, judging_day(startup, quarter, day));
    is_counted_of(item, class)
}

/// Whether the first monitoring of the component was due before the day and was not done (our own rule).
fn is_overdue(
    item: &Equipment,
    classes: &[(Key, Class)],
    startup: Day,
    events: &[Event],
    day: Day,
) -> bool
    requires ordered { Ascends (λ a b. is_earlier a.0 b.0) classes.now }
    ensures value { result ≡ (duties.is_first_owed item.now classes.now startup (min (duties.first_due item.now) day)
        && nat_lt (duties.first_due item.now) day && is_none (duties.routine_in events.now item.now.begin (duties.first_due item.now))) }
{
    let due = item.first_due();
    item.is_first_owed(classes, startup, due.min(day))
        && due < day
        && !has_routine_in(events, item.begin, due)
}

/// Whether the component begins in the quarter and missed its first monitoring by the day (our own rule).
fn is_first_missed(
    item: &Equipment,
    classes: &[(Key, Class)],
    startup: Day,
    events: &[Event],
    quarter: u16,
    day: Day,
) -> bool
    requires startup { startup ≤ LAST_FACT_DAY }
    requires ordered { Ascends (λ a b. is_earlier a.0 b.0) classes.now }
    ensures value { result ≡ law.is_first_missed item.now classes.now startup events.now false quarter day }
{
    is_in_quarter(startup, quarter, item.begin) && is_overdue(item, classes, startup, events, day)
}

/// The quarter in which the component begins, if its first monitoring was missed by the day (our own rule).
pub fn missed_quarter(
    item: &Equipment,
    classes: &[(Key, Class)],
    startup: Day,
    events: &[Event],
    day: Day,
) -> Option<u16>
    requires startup { startup ≤ LAST_FACT_DAY }
    requires ordered { Ascends (λ a b. is_earlier a.0 b.0) classes.now }
    ensures value { (quarter : ℕ) → says_numbered result quarter ≡ law.is_first_missed item.now classes.now startup events.now false quarter day }
{
    if is_overdue(item, classes, startup, events, day) {
        quarter_of(startup, item.begin.month())
    } else {
        None
    }
}

/// The finding in a quarter with a missed first monitoring, which counts as a leak that was found (our own rule).
pub fn with_missed(seen: Mark, missed: bool) -> Mark
    ensures value { result ≡ seen_or_missed seen missed }
{
    Mark {
        leaking: seen.leaking || missed,
        monitored: seen.monitored || missed,
    }
}

/// What a component adds to the counts of a quarter, from whether it is counted and from the finding in the quarter, with a
/// missed first monitoring.
pub fn mark_told(counted: bool, told: Mark, delayed: bool) -> Mark
    ensures leaking { result.leaking ≡ (counted && (told.leaking || delayed)) }
    ensures monitored { result.monitored ≡ (counted && (told.monitored || delayed)) }
{
    Mark {
        leaking: counted && (told.leaking || delayed),
        monitored: counted && (told.monitored || delayed),
    }
}

/// What a component adds to the counts of a quarter (40 CFR 60.485a(h)), in a view of the day. The classes and the
/// events are the component's, the classes in key order. `delayed` is whether some leak is open on the day, or on the
/// quarter's last day if that is earlier, and its repair is delayed.
#[tactic(auto, unfolding(ldar_law::specs::Percent::mark_of))]
pub fn mark(
    equipment: &Equipment,
    classes: &[(Key, Class)],
    startup: Day,
    events: &[Event],
    delayed: bool,
    quarter: u16,
    day: Day,
) -> Mark
    requires startup { startup ≤ LAST_FACT_DAY }
    requires quarter { 1 ≤ quarter }
    requires ordered { Ascends (λ a b. is_earlier a.0 b.0) classes.now }
    ensures value { result ≡ law.mark_of equipment.now classes.now startup events.now delayed quarter day }
{
    let seen = Mark {
        leaking: is_found_leaking(startup, events, quarter),
        monitored: is_read(startup, events, quarter),
    };
    let missed = is_first_missed(equipment, classes, startup, events, quarter, day);
    let counted = is_counted(equipment, classes, startup, quarter, day);
    mark_told(counted, with_missed(seen, missed), delayed)
}
