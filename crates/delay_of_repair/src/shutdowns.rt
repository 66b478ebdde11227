ghost use Rattle.std.specs.Prelude.{◌≡◌, slice_get, drop};
ghost use Rattle.ldar_law.specs.Delays as law;
ghost use Rattle.delay_of_repair.specs.Ends.{AreEnds};

use ldar_days::Day;
use ldar_law::{Stop, Until, VERIFICATION_DAYS, repair_by};

/// Whether an attempt was made on a day of the shutdown.
fn has_attempt_in(attempts: &[Day], stop: &Stop) -> bool
    ensures value { result ≡ law.has_attempt_in attempts.now stop.now }
{
    attempts
        .iter()
        .any(|day| stop.first <= *day && *day <= stop.last)
}

/// The end of a shutdown.
fn end_of(attempts: &[Day], stop: &Stop) -> Day
    ensures value { result ≡ law.end_of attempts.now stop.now }
{
    if has_attempt_in(attempts, stop) {
        // The startup is on the day after the last one; the verification then has fifteen days.
        stop.last.plus_days(VERIFICATION_DAYS)
    } else {
        stop.last
    }
}

/// The shutdown at this place, from 0, among those that begin after the detection.
fn stop_after(detected: Day, stops: &[Stop], place: usize) -> Option<Stop>
    ensures value { result ≡ slice_get (law.stops_after detected stops.now) place }
{
    let mut left = place;
    for stop in stops {
        if stop.first <= detected {
            continue;
        }
        if left == 0 {
            return Some(*stop);
        }
        left -= 1;
    }
    None
}

/// The end of the shutdown at this place among those that begin after the detection, if it was entered.
fn end_at(detected: Day, attempts: &[Day], stops: &[Stop], place: usize) -> Until
    ensures value { result ≡ law.end_of_first attempts.now (drop place (law.stops_after detected stops.now)) }
{
    match stop_after(detected, stops, place) {
        Some(stop) => Until::Date(end_of(attempts, &stop)),
        None => Until::Shutdown,
    }
}

/// The end of the first shutdown that begins after the detection, if it was entered.
fn end_of_first(detected: Day, attempts: &[Day], stops: &[Stop]) -> Until
    ensures value { result ≡ law.end_of_first attempts.now (law.stops_after detected stops.now) }
{
    end_at(detected, attempts, stops, 0)
}

/// The end of the second shutdown that begins after the detection, or of the third if the second begins less than six
/// months after the first began; if it was entered.
fn end_of_second(detected: Day, attempts: &[Day], stops: &[Stop]) -> Until
    ensures value { result ≡ law.end_of_second attempts.now (law.stops_after detected stops.now) }
{
    let Some(first) = stop_after(detected, stops, 0) else {
        return Until::Shutdown;
    };
    let Some(second) = stop_after(detected, stops, 1) else {
        return Until::Shutdown;
    };
    if second.first < first.first.plus_months(6) {
        end_at(detected, attempts, stops, 2)
    } else {
        Until::Date(end_of(attempts, &second))
    }
}

/// The days on which a delay can end, each computed once.
#[derive(Clone, Copy)]
pub struct Ends {
    /// The day by which the repair is due without a delay (40 CFR 60.482-7a(d)(1)).
    pub repair_by: Day,
    /// The day six months after the detection (40 CFR 60.482-9a(d)).
    pub half_year: Day,
    /// The end of the first shutdown after the detection (40 CFR 60.482-9a(a)).
    pub first: Until,
    /// The end of the second one, or of the third if the second is too soon (40 CFR 60.482-9a(e)).
    pub second: Until,
}

impl Ends {
    /// The possible ends after a detection.
    pub fn after(detected: Day, attempts: &[Day], stops: &[Stop]) -> Ends
        ensures value { AreEnds detected attempts.now stops.now result }
    {
        Ends {
            repair_by: repair_by(detected),
            half_year: detected.plus_months(6),
            first: end_of_first(detected, attempts, stops),
            second: end_of_second(detected, attempts, stops),
        }
    }
}
