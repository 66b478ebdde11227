//! Finds the first failed drift assessment, from a place on, that voids a reading. The number of steps grows as the logarithm
//! of the number of assessments.
//!
//! `next` of an assessment is the first later one of the instrument that drifted further. If an assessment does not void a
//! reading, neither do those between it and `next`. `jump` skips several such steps at once. The lengths of the jumps are
//! those of skew binary numbers (Myers, "An applicative random-access stack"), so few of them lead to any later place.

ghost use Rattle.std.specs.Prelude.{◌≡◌, ℕ, ◌+◌, ◌*◌, ◌<◌, ◌≤◌, true, false, IfOk, length};
ghost use Rattle.std.specs.List.{AllWithin};
ghost use Rattle.ldar_law.specs.Fitness as law;
ghost use Rattle.method21_reading.specs.Leaps as spec;
ghost use Rattle.method21_reading.specs.Leaps.{is_clear as is_clear_of, NonePast, LeapsTo, LeapsFrom, LeadsOver, leap_in};

use crate::drift::{has_drifted, is_above_drifted, is_drift_past};
use fact_kinds::{Fact, FactBody, Key, Memory};
use std::alloc::Global;

/// Where a search continues from a drift assessment that does not void the reading. The end of the facts is a place too.
#[derive(Clone, Copy)]
pub struct Leap {
    /// The first later assessment of the instrument that drifted further.
    pub next: usize,
    /// A place that one or more such steps reach.
    pub jump: usize,
    /// The number of such steps to the end.
    pub depth: usize,
}

/// Whether a fact is a failed drift assessment of the instrument that does not void such a reading.
fn is_clear(instrument: u16, limit: u32, ppm: u32, fact: &Fact) -> bool
    ensures value { result ≡ is_clear_of instrument limit ppm fact.now.body }
{
    match fact.body {
        FactBody::Drift {
            instrument: of,
            value,
            readings,
        } => {
            of == instrument
                && has_drifted(value, readings)
                && !is_above_drifted(limit, ppm, value, readings)
        }
        _ => false,
    }
}

/// A later place, with no assessment from `at` up to it that voids the reading. The one at `at` must not void it.
fn later_place(
    facts: &[(Key, Fact)],
    leaps: &[Leap],
    at: usize,
    instrument: u16,
    limit: u32,
    ppm: u32,
) -> usize
    requires within { at < length facts.now }
    requires sound { LeapsFrom facts.now leaps.now at }
    requires not_past { NonePast instrument limit ppm facts.now at (at + 1) }
    ensures later { (at < result) × (result ≤ length facts.now) }
    ensures none { NonePast instrument limit ppm facts.now at result }
{
    if !is_clear(instrument, limit, ppm, &facts[at].1) {
        return at + 1;
    }
    let leap = leaps[at];
    if leap.jump < facts.len() && is_clear(instrument, limit, ppm, &facts[leap.jump].1) {
        return leap.jump;
    }
    leap.next
}

/// The place of the first drift assessment of the instrument, from a place on, by which such a reading may be a leak. It is the
/// number of facts if there is no such assessment.
pub fn first_past(
    facts: &[(Key, Fact)],
    leaps: &[Leap],
    from: usize,
    instrument: u16,
    limit: u32,
    ppm: u32,
) -> usize
    requires within { from ≤ length facts.now }
    requires sound { LeapsFrom facts.now leaps.now from }
    ensures bound { (from ≤ result) × (result ≤ length facts.now) }
    ensures none { NonePast instrument limit ppm facts.now from result }
    ensures past { result < length facts.now → AllWithin (λ e. law.is_drift_past instrument limit ppm e.1.body ≡ true) facts.now result (result + 1) }
{
    let mut at = from;
    while at < facts.len() && !is_drift_past(instrument, limit, ppm, &facts[at].1) {
        at = later_place(facts, leaps, at, instrument, limit, ppm);
    }
    at
}

/// The leap from a place. The end leads to itself.
fn leap_from(leaps: &[Leap], place: usize) -> Leap
    ensures value { result ≡ leap_in leaps.now place }
{
    match leaps.get(place) {
        Some(leap) => *leap,
        None => Leap {
            next: leaps.len(),
            jump: leaps.len(),
            depth: 0,
        },
    }
}

/// The jump of a place whose next place is `next`: two jumps from `next` if these are equally long, and otherwise `next`.
fn jump_past(facts: &[(Key, Fact)], leaps: &[Leap], next: usize) -> usize
    requires within { next ≤ length facts.now }
    requires sound { LeapsFrom facts.now leaps.now next }
    ensures bound { (next ≤ result) × (result ≤ length facts.now) }
    ensures leads { LeadsOver facts.now next result }
{
    let far = leap_from(leaps, next);
    let farther = leap_from(leaps, far.jump);
    let farthest = leap_from(leaps, farther.jump);
    let first = far.depth.saturating_sub(farther.depth);
    if first == farther.depth.saturating_sub(farthest.depth) {
        return farther.jump;
    }
    next
}

/// The instrument of a failed drift assessment, three times the known value, and the sum of the readings.
fn failed_in(fact: &Fact) -> Option<(u16, u32, u32)>
    ensures value { result ≡ spec.failed_in fact.now.body }
{
    match fact.body {
        FactBody::Drift {
            instrument,
            value,
            readings,
        } if has_drifted(value, readings) => Some((
            instrument,
            3 * value,
            readings.0 + readings.1 + readings.2,
        )),
        _ => None,
    }
}

/// The leap from a place, from the leaps of later places.
fn leap_at(facts: &[(Key, Fact)], leaps: &[Leap], at: usize) -> Leap
    requires within { at < length facts.now }
    requires sound { LeapsFrom facts.now leaps.now (at + 1) }
    ensures value { LeapsTo facts.now at result }
{
    match failed_in(&facts[at].1) {
        Some((instrument, known, sum)) => {
            // An assessment drifted further if it voids a reading equal to the leak definition less the drift of this one.
            let next = first_past(facts, leaps, at + 1, instrument, known, sum);
            let jump = jump_past(facts, leaps, next);
            let depth = leap_from(leaps, next).depth.saturating_add(1);
            Leap { next, jump, depth }
        }
        None => Leap {
            next: at + 1,
            jump: facts.len(),
            depth: 0,
        },
    }
}

/// The leaps from all places. Returns an error if it is out of memory.
pub fn leaps_of(alloc: Global, facts: &[(Key, Fact)]) -> Result<Vec<Leap>, Memory>
    ensures value { IfOk result (λ leaps. LeapsFrom facts.now leaps.items 0) }
{
    let nowhere = Leap {
        next: 0,
        jump: 0,
        depth: 0,
    };
    let mut leaps = vec![in alloc; nowhere; facts.len()]?;
    let mut at = facts.len();
    while at > 0 {
        at -= 1;
        leaps[at] = leap_at(facts, &leaps, at);
    }
    Ok(leaps)
}
