ghost use Rattle.std.specs.Prelude.{◌≡◌, ◌+◌, ◌&&◌, nat_eq};
ghost use Rattle.ldar_days.specs.Calendar.{month_of};
ghost use Rattle.ldar_law.specs.Happenings.{is_below as says_below};
ghost use Rattle.ldar_law.specs.Settling as law;

use fact_kinds::Kind;
use ldar_law::{Event, REPAIR_DAYS, has_leak, is_valve_or_pump};

/// Whether some attempt is between, and no leak is between the attempt and the event that settles.
fn is_attempted(between: &[Event]) -> bool
    ensures value { result ≡ law.is_attempted between.now }
{
    for (place, attempt) in between.iter().enumerate() {
        if attempt.what.is_attempt() && !has_leak(&between[place + 1..]) {
            return true;
        }
    }
    false
}

/// Whether some delay of ground (a), (c), (d) or (e) is between, at most fifteen days after the leak.
fn has_delay_between(leak: &Event, between: &[Event]) -> bool
    ensures value { result ≡ law.has_delay_between leak.now between.now }
{
    between.iter().any(|x| {
        x.what.delays_with_reading() && x.key.day.number() <= leak.key.day.number() + REPAIR_DAYS
    })
}

/// Whether an event is a counting reading below the leak definition, in the month before the later event.
fn is_below_before(reading: &Event, later: &Event) -> bool
    ensures value { result ≡ (says_below reading.now.what && nat_eq (month_of reading.now.key.day + 1) (month_of later.now.key.day)) }
{
    reading.what.is_below()
        && reading.key.day.month().number() + 1 == later.key.day.month().number()
}

/// Whether some counting reading below the leak definition is between, in the month before the later event, and no leak
/// is after it.
fn was_below(between: &[Event], later: &Event) -> bool
    ensures value { result ≡ law.was_below between.now later.now }
{
    for (place, reading) in between.iter().enumerate() {
        if is_below_before(reading, later) && !has_leak(&between[place + 1..]) {
            return true;
        }
    }
    false
}

/// Whether a reading or a drip is settled by a counting reading below the leak definition, after an attempt.
fn settles_by_reading(leak: &Event, between: &[Event], later: &Event) -> bool
    ensures value { result ≡ law.settles_by_reading leak.now between.now later.now }
{
    leak.what.is_reading_or_drip() && later.what.is_below() && is_attempted(between)
}

/// Whether a drip is settled by a dry visual inspection, after an attempt.
fn settles_by_dry_look(leak: &Event, between: &[Event], later: &Event) -> bool
    ensures value { result ≡ law.settles_by_dry_look leak.now between.now later.now }
{
    leak.what.is_look() && later.what.is_dry() && is_attempted(between)
}

/// Whether a sensor's leak is settled by a complete attempt.
fn settles_by_complete_attempt(leak: &Event, later: &Event) -> bool
    ensures value { result ≡ law.settles_by_complete_attempt leak.now later.now }
{
    leak.what.is_sensor() && later.what.is_complete()
}

/// Whether a delayed leak of a valve or pump is settled by readings below the leak definition in two months in a row
/// (40 CFR 60.482-9a(f)).
fn settles_by_two_readings(kind: Kind, leak: &Event, between: &[Event], later: &Event) -> bool
    ensures value { result ≡ law.settles_by_two_readings kind leak.now between.now later.now }
{
    is_valve_or_pump(kind)
        && later.what.is_below()
        && has_delay_between(leak, between)
        && was_below(between, later)
}

/// Whether the later event settles the leak, with these events between the two (40 CFR 60.481a "repaired",
/// 60.482-9a(f)). Going out of service settles a leak by our own rule.
fn settles(kind: Kind, leak: &Event, between: &[Event], later: &Event) -> bool
    ensures value { result ≡ law.settles kind leak.now between.now later.now }
{
    settles_by_reading(leak, between, later)
        || settles_by_dry_look(leak, between, later)
        || settles_by_complete_attempt(leak, later)
        || settles_by_two_readings(kind, leak, between, later)
        || later.what.is_retire()
}

/// Whether some event after the leak settles it.
fn is_settled(kind: Kind, leak: &Event, after: &[Event]) -> bool
    ensures value { result ≡ law.is_settled kind leak.now after.now }
{
    for (place, later) in after.iter().enumerate() {
        if settles(kind, leak, &after[..place], later) {
            return true;
        }
    }
    false
}

/// Whether no event after some leak settles it.
pub fn is_unsettled(kind: Kind, events: &[Event]) -> bool
    ensures value { result ≡ law.is_unsettled kind events.now }
{
    for (place, leak) in events.iter().enumerate() {
        if leak.what.is_leak() && !is_settled(kind, leak, &events[place + 1..]) {
            return true;
        }
    }
    false
}
