ghost use Rattle.std.specs.Prelude.{◌≡◌, ℕ, List};
ghost use Rattle.fact_kinds.specs.declared.class.Class.{Class as SomeClass};
ghost use Rattle.fact_kinds.specs.declared.key.Key.{Key as SomeKey};
ghost use Rattle.ldar_law.specs.Events as law;
ghost use Rattle.ldar_law.specs.Standing.{is_left_out};
ghost use Rattle.method21_reading.specs.Readings.{look_on};
ghost use Rattle.method21_reading.specs.Standings.{drips_leak_on, rules_on, sensors_leak_on};

use crate::rules::Rules;
use fact_kinds::{FactBody, Purpose, Sort, VisualState};
use ldar_days::Day;
use ldar_law::{Equipment, Fitness, Happening};

/// Whether a reading of the day counts: it is fit, and the component is in service and not in an excluded service.
fn counts(item: &Equipment, rules: &Rules, day: Day, fit: bool) -> bool
    ensures value { (classes : List (SomeKey × SomeClass)) → rules.now.left_out ≡ is_left_out item.now classes day
        → result ≡ law.counts_on item.now classes day fit }
{
    item.is_in_service(day) && !rules.left_out && fit
}

/// Whether a visual inspection found drips.
fn has_drips(state: VisualState) -> bool
    ensures value { result ≡ law.drips_in state }
{
    match state {
        VisualState::Dry => false,
        VisualState::Drips => true,
        VisualState::Designated => true,
    }
}

/// Whether a visual inspection of the day designates drips that are a leak (40 CFR 60.482-2a(b)(2)(ii)).
fn is_drip_leak(item: &Equipment, rules: &Rules, day: Day, state: VisualState) -> bool
    ensures value { (classes : List (SomeKey × SomeClass)) → rules.now.drips_leak ≡ drips_leak_on item.now classes day
        → result ≡ law.is_drip_leak item.now classes day state }
{
    is_designated(state) && item.is_in_service(day) && rules.drips_leak
}

/// Whether a visual inspection designates drips as a leak.
fn is_designated(state: VisualState) -> bool
    ensures value { result ≡ law.designated_in state }
{
    matches!(state, VisualState::Designated)
}

/// Whether an indication of a sensor is a leak (40 CFR 60.482-3a(f)).
fn is_sensor_leak(item: &Equipment, rules: &Rules, day: Day, present: bool) -> bool
    ensures value { (classes : List (SomeKey × SomeClass)) → rules.now.sensors_leak ≡ sensors_leak_on item.now classes day
        → result ≡ law.is_sensor_leak item.now classes day present }
{
    present && item.is_in_service(day) && rules.sensors_leak
}

/// A reading of the day, judged.
fn reading(
    item: &Equipment,
    rules: &Rules,
    day: Day,
    fit: bool,
    purpose: Purpose,
    ppm: u32,
    background: u32,
) -> Happening
    ensures value { (classes : List (SomeKey × SomeClass)) (limit : ℕ → ℕ) → rules.now ≡ rules_on item.now classes limit day
        → result ≡ law.reading_on item.now classes limit day fit purpose ppm background }
{
    let counts = counts(item, rules, day, fit);
    let is_below = ppm < rules.limit;
    Happening::Read {
        ppm,
        background,
        routine: matches!(purpose, Purpose::Routine),
        counts,
        below: counts && is_below,
        leak: counts && !is_below && rules.readings_leak,
    }
}

/// A visual inspection of the day, judged.
fn look(item: &Equipment, rules: &Rules, day: Day, state: VisualState) -> Happening
    ensures value { (classes : List (SomeKey × SomeClass)) → rules.now.drips_leak ≡ drips_leak_on item.now classes day
        → result ≡ look_on item.now classes day state }
{
    Happening::Look {
        drips: has_drips(state),
        designated: is_designated(state),
        leak: is_drip_leak(item, rules, day, state),
    }
}

/// An indication of the day, judged.
fn indication(item: &Equipment, rules: &Rules, day: Day, sort: Sort, present: bool) -> Happening
    ensures value { (classes : List (SomeKey × SomeClass)) → rules.now.sensors_leak ≡ sensors_leak_on item.now classes day
        → result ≡ law.indication_on item.now classes day sort present }
{
    match sort {
        Sort::Sensor => Happening::Sensor {
            present,
            leak: is_sensor_leak(item, rules, day, present),
        },
        Sort::Evidence => Happening::Evidence { present },
    }
}

/// The event of a fact of a component, by how the rule treats the component on the day; a reading by its fitness. An entry in
/// the register is no event.
pub fn happening(
    item: &Equipment,
    rules: &Rules,
    day: Day,
    fitness: &Fitness,
    body: &FactBody,
) -> Option<Happening>
    ensures value { (classes : List (SomeKey × SomeClass)) (limit : ℕ → ℕ) → rules.now ≡ rules_on item.now classes limit day
        → result ≡ law.happening item.now classes limit day fitness.now body.now }
{
    match *body {
        FactBody::Reading {
            purpose,
            ppm,
            background,
            ..
        } => Some(reading(item, rules, day, fitness.is_fit(), purpose, ppm, background)),
        FactBody::Visual { state, .. } => Some(look(item, rules, day, state)),
        FactBody::Attempt { complete, .. } => Some(Happening::Attempt { complete }),
        FactBody::Delay {
            ground,
            signer,
            expected,
            ..
        } => Some(Happening::Delay {
            ground,
            signer,
            expected,
        }),
        FactBody::Release { .. } => Some(Happening::Release),
        FactBody::Indication { sort, present, .. } => Some(indication(
            item, rules, day, sort, present,
        )),
        FactBody::Retire { .. } => Some(Happening::Retire),
        FactBody::Unit { .. }
        | FactBody::Component { .. }
        | FactBody::Class { .. }
        | FactBody::Election { .. }
        | FactBody::Shutdown { .. }
        | FactBody::Calibration { .. }
        | FactBody::Precision { .. }
        | FactBody::Drift { .. } => None,
    }
}
