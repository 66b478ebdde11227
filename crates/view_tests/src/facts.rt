//! Facts as tests write them: `DAY MINUTE`, the kind of the fact, and its numbers. A test or reading of an instrument other than 1
//! ends with `by INSTRUMENT`.

ghost use Rattle.std.specs.Prelude.{◌≡◌, ◌≤◌, ◌⊎◌, IfSome};
ghost use Rattle.fact_kinds.specs.declared.class.Designation.TheVariants.{Plain, Nde};
ghost use Rattle.fact_kinds.specs.Fields.{IsFact};

use crate::words::{component, day, has, number, ppm, short, unit};
use fact_kinds::{
    Class, Designation, Fact, FactBody, Kind, Name, Purpose, Service, Sort, VisualState,
};
use ldar_days::Day;
use std::alloc::Global;
use std::test::Fail;

/// The day and the minute of a fact, and the instrument of a test or reading.
#[derive(Drop)]
struct Moment {
    day: Day,
    minute: u16,
    instrument: u16,
    ghost in_range: { minute ≤ 1_439 },
    ghost numbered: { 1 ≤ instrument },
}

/// The fact that a text spells.
pub fn fact(alloc: Global, text: &str) -> Result<Fact, Fail> {
    let words: Vec<&str> = text.split_whitespace().collect(alloc)?;
    Ok(fact_of(&words).ok_or("fact")?)
}

/// The fact that these words spell, if they do.
fn fact_of(words: &[&str]) -> Option<Fact> {
    let [date, minute, what, numbers @ ..] = words else {
        return None;
    };
    let (instrument, rest) = instrument_of(numbers)?;
    let day = day(date)?;
    let minute = number(minute, 0, 1_439)? as u16;
    let at = Moment {
        day,
        minute,
        instrument,
    };
    entry(at, what, rest)
}

/// The instrument of a fact, and the words before it.
fn instrument_of<'a>(words: &'a [&'a str]) -> Option<(u16, &'a [&'a str])>
    ensures numbered { IfSome result (λ r. 1 ≤ r.0) }
{
    match words {
        [rest @ .., "by", own] => Some((number(own, 1, 65_535)? as u16, rest)),
        _ => Some((1, words)),
    }
}

/// A fact of the register, or another one.
fn entry(at: Moment, what: &str, numbers: &[&str]) -> Option<Fact> {
    match what {
        "unit" => process_unit(at, numbers),
        "valve" => equipment(at, Kind::Valve, numbers),
        "pump" => equipment(at, Kind::Pump, numbers),
        "compressor" => equipment(at, Kind::Compressor, numbers),
        "relief" => equipment(at, Kind::Relief, numbers),
        "election" => election(at, numbers),
        "shutdown" => shutdown(at, numbers),
        _ => test_of_instrument(at, what, numbers),
    }
}

/// A test of an instrument, or another fact.
fn test_of_instrument(at: Moment, what: &str, numbers: &[&str]) -> Option<Fact> {
    match what {
        "calibration" => calibration(at, numbers),
        "precision" => precision(at, numbers),
        "drift" => drift(at, numbers),
        _ => event(at, what, numbers),
    }
}

/// An event at a component.
fn event(at: Moment, what: &str, numbers: &[&str]) -> Option<Fact> {
    match what {
        "reading" => reading(at, numbers),
        "visual" => visual(at, numbers),
        "attempt" => attempt(at, numbers),
        "delay" => delay(at, numbers),
        "release" => release(at, numbers),
        "indication" => indication(at, numbers),
        _ => change(at, what, numbers),
    }
}

/// A change of a component's class, or its retirement.
fn change(at: Moment, what: &str, numbers: &[&str]) -> Option<Fact> {
    match what {
        "class" => class(at, numbers),
        "retire" => retire(at, numbers),
        _ => None,
    }
}

/// The fact with this body at this moment.
fn on(at: Moment, body: FactBody) -> Fact
    requires in_range { IsFact (record { day = at.day; minute = at.minute; body = body }) }
{
    Fact {
        day: at.day,
        minute: at.minute,
        body,
    }
}

/// `unit UNIT NAME`
fn process_unit(at: Moment, numbers: &[&str]) -> Option<Fact> {
    let [number, name] = numbers else {
        return None;
    };
    let unit = unit(number)?;
    let name = Name::new(name.as_bytes())?;
    let body = FactBody::Unit {
        unit,
        older: false,
        name,
    };
    Some(on(at, body))
}

fn service(word: &str) -> Option<Service> {
    match word {
        "gas" => Some(Service::Gas),
        "light" => Some(Service::Light),
        "heavy" => Some(Service::Heavy),
        _ => None,
    }
}

/// `KIND COMPONENT UNIT SERVICE`, optionally followed by `monomer`
fn equipment(at: Moment, kind: Kind, numbers: &[&str]) -> Option<Fact> {
    let [number, own, fluid, flags @ ..] = numbers else {
        return None;
    };
    let component = component(number)?;
    let unit = unit(own)?;
    let service = service(fluid)?;
    let class = Class {
        service,
        designation: Designation::Plain,
        plan: 0,
        month: 1,
    };
    let body = FactBody::Component {
        component,
        unit,
        kind,
        monomer: has(flags, "monomer"),
        replaces: false,
        class,
    };
    Some(on(at, body))
}

fn mode(word: &str) -> Option<u8>
    ensures { IfSome result (λ mode. mode ≤ 1) }
{
    Some(number(word, 0, 1)? as u8)
}

/// `election UNIT MODE NOTIFIED`
fn election(at: Moment, numbers: &[&str]) -> Option<Fact> {
    let [number, programme, notified] = numbers else {
        return None;
    };
    let unit = unit(number)?;
    let mode = mode(programme)?;
    let notified = day(notified)?;
    let body = FactBody::Election {
        unit,
        mode,
        notified,
    };
    Some(on(at, body))
}

/// `shutdown UNIT DAYS`
fn shutdown(at: Moment, numbers: &[&str]) -> Option<Fact> {
    let [own, length] = numbers else {
        return None;
    };
    let unit = unit(own)?;
    let days = number(length, 1, 366)? as u16;
    Some(on(at, FactBody::Shutdown { unit, days }))
}

/// The concentration of a gas.
fn known_value(word: &str) -> Option<u32>
    ensures in_range { IfSome result (λ n. (1 ≤ n) × (n ≤ 999_999)) }
{
    number(word, 1, 999_999)
}

/// `calibration GAS`
fn calibration(at: Moment, numbers: &[&str]) -> Option<Fact> {
    let [gas] = numbers else {
        return None;
    };
    let gas = known_value(gas)?;
    let body = FactBody::Calibration {
        instrument: at.instrument,
        gas,
    };
    Some(on(at, body))
}

/// `A B C`
fn readings_of(words: &[&str]) -> Option<(u32, u32, u32)>
    ensures in_range { IfSome result (λ r. (r.0 ≤ 999_999) × (r.1 ≤ 999_999) × (r.2 ≤ 999_999)) }
{
    let [a, b, c] = words else {
        return None;
    };
    let a = ppm(a)?;
    let b = ppm(b)?;
    let c = ppm(c)?;
    Some((a, b, c))
}

/// `precision VALUE A B C`
fn precision(at: Moment, numbers: &[&str]) -> Option<Fact> {
    let [value, read @ ..] = numbers else {
        return None;
    };
    let value = known_value(value)?;
    let readings = readings_of(read)?;
    let body = FactBody::Precision {
        instrument: at.instrument,
        value,
        readings,
    };
    Some(on(at, body))
}

/// `drift VALUE A B C`
fn drift(at: Moment, numbers: &[&str]) -> Option<Fact> {
    let [value, read @ ..] = numbers else {
        return None;
    };
    let value = known_value(value)?;
    let readings = readings_of(read)?;
    let body = FactBody::Drift {
        instrument: at.instrument,
        value,
        readings,
    };
    Some(on(at, body))
}

/// `reading COMPONENT PPM BACKGROUND`, optionally followed by `follow-up`: a reading by operator 1, and a routine one if it is no
/// follow-up
fn reading(at: Moment, numbers: &[&str]) -> Option<Fact> {
    let [number, parts, around, flags @ ..] = numbers else {
        return None;
    };
    let component = component(number)?;
    let found = ppm(parts)?;
    let background = ppm(around)?;
    let body = FactBody::Reading {
        component,
        instrument: at.instrument,
        operator: 1,
        purpose: purpose(flags),
        ppm: found,
        background,
    };
    Some(on(at, body))
}

fn purpose(flags: &[&str]) -> Purpose {
    if has(flags, "follow-up") {
        Purpose::FollowUp
    } else {
        Purpose::Routine
    }
}

fn visual_state(word: &str) -> Option<VisualState> {
    match word {
        "dry" => Some(VisualState::Dry),
        "drips" => Some(VisualState::Drips),
        "designated" => Some(VisualState::Designated),
        _ => None,
    }
}

/// `visual COMPONENT` and `dry`, `drips` or `designated`
fn visual(at: Moment, numbers: &[&str]) -> Option<Fact> {
    let [number, found] = numbers else {
        return None;
    };
    let component = component(number)?;
    let state = visual_state(found)?;
    Some(on(at, FactBody::Visual { component, state }))
}

/// `attempt COMPONENT`, optionally followed by `complete`
fn attempt(at: Moment, numbers: &[&str]) -> Option<Fact> {
    let [number, flags @ ..] = numbers else {
        return None;
    };
    let component = component(number)?;
    let body = FactBody::Attempt {
        component,
        complete: has(flags, "complete"),
    };
    Some(on(at, body))
}

/// The letter of a ground as a number; 0 for a delay that is withdrawn.
fn ground(word: &str) -> Option<u8>
    ensures in_range { IfSome result (λ number. number ≤ 5) }
{
    match word {
        "withdrawn" => Some(0),
        "a" => Some(1),
        "b" => Some(2),
        "c" => Some(3),
        "d" => Some(4),
        "e" => Some(5),
        _ => None,
    }
}

/// `delay COMPONENT GROUND SIGNER EXPECTED`
fn delay(at: Moment, numbers: &[&str]) -> Option<Fact> {
    let [number, letter, person, until] = numbers else {
        return None;
    };
    let component = component(number)?;
    let ground = ground(letter)?;
    let signer = short(person)?;
    let expected = day(until)?;
    let body = FactBody::Delay {
        component,
        ground,
        signer,
        expected: Some(expected),
    };
    Some(on(at, body))
}

/// `release COMPONENT`
fn release(at: Moment, numbers: &[&str]) -> Option<Fact> {
    let [number] = numbers else {
        return None;
    };
    let component = component(number)?;
    Some(on(at, FactBody::Release { component }))
}

fn sort(word: &str) -> Option<Sort> {
    match word {
        "sensor" => Some(Sort::Sensor),
        "evidence" => Some(Sort::Evidence),
        _ => None,
    }
}

/// `indication COMPONENT` and `sensor` or `evidence`, optionally followed by `gone`
fn indication(at: Moment, numbers: &[&str]) -> Option<Fact> {
    let [number, found, flags @ ..] = numbers else {
        return None;
    };
    let component = component(number)?;
    let sort = sort(found)?;
    let body = FactBody::Indication {
        component,
        sort,
        present: !has(flags, "gone"),
    };
    Some(on(at, body))
}

/// No detectable emissions, if a flag says so, and else no designation.
fn designation(flags: &[&str]) -> Designation
    ensures no_plan { (result ≡ Plain) ⊎ (result ≡ Nde) }
{
    if has(flags, "nde") {
        Designation::Nde
    } else {
        Designation::Plain
    }
}

/// `class COMPONENT SERVICE`, optionally followed by `nde`
fn class(at: Moment, numbers: &[&str]) -> Option<Fact> {
    let [number, fluid, flags @ ..] = numbers else {
        return None;
    };
    let component = component(number)?;
    let service = service(fluid)?;
    let class = Class {
        service,
        designation: designation(flags),
        plan: 0,
        month: 1,
    };
    Some(on(at, FactBody::Class { component, class }))
}

/// `retire COMPONENT`
fn retire(at: Moment, numbers: &[&str]) -> Option<Fact> {
    let [number] = numbers else {
        return None;
    };
    let component = component(number)?;
    Some(on(at, FactBody::Retire { component }))
}
