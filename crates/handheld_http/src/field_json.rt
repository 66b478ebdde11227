ghost use Rattle.std.specs.Prelude.{◌≡◌, ℕ, ◌<◌, ◌≤◌, ◌≢◌, IfSome, option_map, option_and_then, Some};
ghost use Rattle.std.specs.List.{AllByRecursion};
ghost use Rattle.serde_json.specs.View.{view};
ghost use Rattle.fact_kinds.specs.Fields.{IsAmong, IsFilled, class_fields, designation_number, plans, readings_fields, service_number};
ghost use Rattle.handheld_http.specs.FactJson as spec;
ghost use Rattle.handheld_http.specs.Members as members;

use crate::members::{number, word};
use fact_kinds::{Class, Designation, Kind, Purpose, Service, Sort, VisualState};
use serde_json::Value;

/// The type of a component.
pub(crate) fn type_of(value: Option<&Value>) -> Option<Kind>
    ensures { result ≡ option_map spec.type_at (members.word spec.type_words (option_map (λ v. view v.now) value.entry)) }
{
    let place = word(value, &["valve", "pump", "compressor", "relief"])?;
    Some(type_at(place))
}

fn type_at(place: usize) -> Kind
    ensures { result ≡ spec.type_at place }
{
    match place {
        0 => Kind::Valve,
        1 => Kind::Pump,
        2 => Kind::Compressor,
        _ => Kind::Relief,
    }
}

fn service_at(place: usize) -> Service
    ensures value { result ≡ spec.service_at place }
    ensures in_range { (1 ≤ service_number result) × (service_number result ≤ 5) }
{
    match place {
        0 => Service::Gas,
        1 => Service::Light,
        2 => Service::Heavy,
        3 => Service::Vacuum,
        _ => Service::Under300,
    }
}

fn designation_at(place: usize) -> Designation
    ensures value { result ≡ spec.designation_at place }
    ensures in_range { (0 ≤ designation_number result) × (designation_number result ≤ 3) }
{
    match place {
        0 => Designation::Plain,
        1 => Designation::Nde,
        2 => Designation::Unsafe,
        _ => Designation::Difficult,
    }
}

/// The purpose of a reading.
pub(crate) fn purpose(value: Option<&Value>) -> Option<Purpose>
    ensures { result ≡ option_map spec.purpose_at (members.word spec.purpose_words (option_map (λ v. view v.now) value.entry)) }
{
    let place = word(value, &["routine", "follow"])?;
    Some(if place == 0 {
        Purpose::Routine
    } else {
        Purpose::FollowUp
    })
}

/// The result of a visual inspection.
pub(crate) fn state(value: Option<&Value>) -> Option<VisualState>
    ensures { result ≡ option_map spec.state_at (members.word spec.state_words (option_map (λ v. view v.now) value.entry)) }
{
    let place = word(value, &["dry", "drips", "leak"])?;
    Some(state_at(place))
}

fn state_at(place: usize) -> VisualState
    ensures { result ≡ spec.state_at place }
{
    match place {
        0 => VisualState::Dry,
        1 => VisualState::Drips,
        _ => VisualState::Designated,
    }
}

/// The kind of an indication.
pub(crate) fn sort(value: Option<&Value>) -> Option<Sort>
    ensures { result ≡ option_map spec.sort_at (members.word spec.sort_words (option_map (λ v. view v.now) value.entry)) }
{
    let place = word(value, &["sensor", "evidence"])?;
    Some(if place == 0 {
        Sort::Sensor
    } else {
        Sort::Evidence
    })
}

/// The months of a plan, which depend on the designation.
fn plan(designation: Designation, value: Option<&Value>) -> Option<u64>
    ensures value { result ≡ spec.plan designation (option_map (λ v. view v.now) value.entry) }
    ensures among { IfSome result (λ n. IsAmong n (plans designation)) }
    ensures in_range { IfSome result (λ n. n ≤ 60) }
{
    match designation {
        Designation::Plain => number(value, 0, 0),
        Designation::Nde => number(value, 0, 0),
        Designation::Unsafe => number(value, 1, 60),
        Designation::Difficult => number(value, 0, 0),
    }
}

/// The service of a component.
fn service(value: Option<&Value>) -> Option<Service>
    ensures value { result ≡ option_map spec.service_at (members.word spec.service_words (option_map (λ v. view v.now) value.entry)) }
    ensures in_range { IfSome result (λ s. (1 ≤ service_number s) × (service_number s ≤ 5)) }
{
    let place = service_place(value)?;
    Some(service_at(place))
}

/// The place of the word for a component's service.
fn service_place(value: Option<&Value>) -> Option<usize>
    ensures { result ≡ members.word spec.service_words (option_map (λ v. view v.now) value.entry) }
{
    word(value, &["gas", "light", "heavy", "vacuum", "under300"])
}

/// The designation of a component.
fn designation(value: Option<&Value>) -> Option<Designation>
    ensures value { result ≡ option_map spec.designation_at (members.word spec.designation_words (option_map (λ v. view v.now) value.entry)) }
    ensures in_range { IfSome result (λ d. (0 ≤ designation_number d) × (designation_number d ≤ 3)) }
{
    let place = word(value, &["none", "nde", "unsafe", "difficult"])?;
    Some(designation_at(place))
}

/// The class of a component, from four members of its fact.
#[tactic(auto, unfolding(crate::specs::FactJson::class))]
pub(crate) fn class(object: &Value) -> Option<Class>
    ensures value { result ≡ spec.class (view object.now) }
    ensures in_range { IfSome result (λ class. AllByRecursion IsFilled (class_fields class)) }
{
    let service = service(object.get("service"))?;
    let designation = designation(object.get("designation"))?;
    let plan = plan(designation, object.get("plan"))? as u8;
    let month = number(object.get("month"), 1, 3)? as u8;
    Some(Class {
        service,
        designation,
        plan,
        month,
    })
}

/// Three readings in an array.
#[tactic(auto, unfolding(crate::specs::FactJson::three))]
fn three(value: &Value) -> Option<(u32, u32, u32)>
    ensures value { result ≡ spec.three (view value.now) }
    ensures in_range { IfSome result (λ r. AllByRecursion IsFilled (readings_fields r)) }
{
    if value.get(3usize).is_some() {
        return None;
    }
    let first = number(value.get(0usize), 0, 999_999)? as u32;
    let second = number(value.get(1usize), 0, 999_999)? as u32;
    let third = number(value.get(2usize), 0, 999_999)? as u32;
    Some((first, second, third))
}

/// The readings of a precision test or a drift assessment.
pub(crate) fn readings(value: Option<&Value>) -> Option<(u32, u32, u32)>
    ensures value { result ≡ spec.readings (option_map (λ v. view v.now) value.entry) }
    ensures in_range { IfSome result (λ r. AllByRecursion IsFilled (readings_fields r)) }
{
    three(value?)
}

/// A skip period program: none, 1 or 3.
#[tactic(auto, unfolding(crate::specs::FactJson::mode))]
pub(crate) fn mode(value: Option<&Value>) -> Option<u8>
    ensures value { result ≡ spec.mode (option_map (λ v. view v.now) value.entry) }
    ensures in_range { IfSome result (λ n. (n ≤ 3) × (n ≢ 2)) }
{
    let mode = number(value, 0, 3)?;
    if mode == 2 {
        return None;
    }
    Some(mode as u8)
}
