ghost use Rattle.std.specs.Prelude.{◌≡◌, ◌<◌, IfSome};
ghost use Rattle.std.specs.List.{AllByRecursion};
ghost use Rattle.serde_json.specs.View.{view};
ghost use Rattle.fact_kinds.specs.Fields.{IsFilled, body_fields};
ghost use Rattle.handheld_http.specs.FactJson as spec;

use crate::field_json::{class, mode, purpose, readings, sort, state, type_of};
use crate::members::{day, day_or_none, flag, has_only, name, number, number_or_none, word};
use fact_kinds::{FactBody, LONGEST_SHUTDOWN};
use serde_json::Value;

/// A fact of the kind at this place in the table, from its object.
#[tactic(auto, unfolding(crate::specs::FactJson::body))]
pub(crate) fn body(kind: usize, object: &Value) -> Option<FactBody>
    requires { kind < 15 }
    ensures value { result ≡ spec.body kind (view object.now) }
    ensures in_range { IfSome result (λ body. AllByRecursion IsFilled (body_fields body)) }
{
    match kind {
        0 => unit_fact(object),
        1 => component_fact(object),
        2 => class_fact(object),
        3 => retire(object),
        4 => election(object),
        5 => shutdown(object),
        6 => calibration(object),
        7 => precision(object),
        8 => drift(object),
        9 => reading(object),
        10 => visual(object),
        11 => attempt(object),
        12 => delay(object),
        13 => release(object),
        _ => indication(object),
    }
}

#[tactic(auto, unfolding(crate::specs::FactJson::unit_fact))]
fn unit_fact(object: &Value) -> Option<FactBody>
    ensures value { result ≡ spec.unit_fact (view object.now) }
    ensures in_range { IfSome result (λ body. AllByRecursion IsFilled (body_fields body)) }
{
    if !has_only(object, &["kind", "day", "minute", "unit", "older", "name"]) {
        return None;
    }
    let unit = number(object.get("unit"), 1, 64)? as u8;
    let older = flag(object.get("older"))?;
    let name = name(object.get("name"))?;
    Some(FactBody::Unit { unit, older, name })
}

#[tactic(auto, unfolding(crate::specs::FactJson::component_fact))]
fn component_fact(object: &Value) -> Option<FactBody>
    ensures value { result ≡ spec.component_fact (view object.now) }
    ensures in_range { IfSome result (λ body. AllByRecursion IsFilled (body_fields body)) }
{
    if !has_only(
        object,
        &[
            "kind",
            "day",
            "minute",
            "component",
            "unit",
            "type",
            "monomer",
            "replaces",
            "service",
            "designation",
            "plan",
            "month",
        ],
    ) {
        return None;
    }
    let component = number(object.get("component"), 1, 60_000)? as u16;
    let unit = number(object.get("unit"), 1, 64)? as u8;
    let kind = type_of(object.get("type"))?;
    let monomer = flag(object.get("monomer"))?;
    let replaces = flag(object.get("replaces"))?;
    let class = class(object)?;
    Some(FactBody::Component {
        component,
        unit,
        kind,
        monomer,
        replaces,
        class,
    })
}

#[tactic(auto, unfolding(crate::specs::FactJson::class_fact))]
fn class_fact(object: &Value) -> Option<FactBody>
    ensures value { result ≡ spec.class_fact (view object.now) }
    ensures in_range { IfSome result (λ body. AllByRecursion IsFilled (body_fields body)) }
{
    if !has_only(
        object,
        &[
            "kind",
            "day",
            "minute",
            "component",
            "service",
            "designation",
            "plan",
            "month",
        ],
    ) {
        return None;
    }
    class_fact_members(object)
}

#[tactic(auto, unfolding(crate::specs::FactJson::class_fact_members))]
fn class_fact_members(object: &Value) -> Option<FactBody>
    ensures value { result ≡ spec.class_fact_members (view object.now) }
    ensures in_range { IfSome result (λ body. AllByRecursion IsFilled (body_fields body)) }
{
    let component = number(object.get("component"), 1, 60_000)? as u16;
    let class = class(object)?;
    Some(FactBody::Class { component, class })
}

#[tactic(auto, unfolding(crate::specs::FactJson::retire))]
fn retire(object: &Value) -> Option<FactBody>
    ensures value { result ≡ spec.retire (view object.now) }
    ensures in_range { IfSome result (λ body. AllByRecursion IsFilled (body_fields body)) }
{
    if !has_only(object, &["kind", "day", "minute", "component"]) {
        return None;
    }
    let component = number(object.get("component"), 1, 60_000)? as u16;
    Some(FactBody::Retire { component })
}

#[tactic(auto, unfolding(crate::specs::FactJson::election))]
fn election(object: &Value) -> Option<FactBody>
    ensures value { result ≡ spec.election (view object.now) }
    ensures in_range { IfSome result (λ body. AllByRecursion IsFilled (body_fields body)) }
{
    if !has_only(
        object,
        &["kind", "day", "minute", "unit", "mode", "notified"],
    ) {
        return None;
    }
    election_members(object)
}

#[tactic(auto, unfolding(crate::specs::FactJson::election_members))]
fn election_members(object: &Value) -> Option<FactBody>
    ensures value { result ≡ spec.election_members (view object.now) }
    ensures in_range { IfSome result (λ body. AllByRecursion IsFilled (body_fields body)) }
{
    let unit = number(object.get("unit"), 1, 64)? as u8;
    let mode = mode(object.get("mode"))?;
    let notified = day(object.get("notified"))?;
    Some(FactBody::Election {
        unit,
        mode,
        notified,
    })
}

#[tactic(auto, unfolding(crate::specs::FactJson::shutdown))]
fn shutdown(object: &Value) -> Option<FactBody>
    ensures value { result ≡ spec.shutdown (view object.now) }
    ensures in_range { IfSome result (λ body. AllByRecursion IsFilled (body_fields body)) }
{
    if !has_only(object, &["kind", "day", "minute", "unit", "days"]) {
        return None;
    }
    let unit = number(object.get("unit"), 1, 64)? as u8;
    let days = number(object.get("days"), 1, LONGEST_SHUTDOWN as u64)? as u16;
    Some(FactBody::Shutdown { unit, days })
}

#[tactic(auto, unfolding(crate::specs::FactJson::calibration))]
fn calibration(object: &Value) -> Option<FactBody>
    ensures value { result ≡ spec.calibration (view object.now) }
    ensures in_range { IfSome result (λ body. AllByRecursion IsFilled (body_fields body)) }
{
    if !has_only(object, &["kind", "day", "minute", "instrument", "gas"]) {
        return None;
    }
    let instrument = number(object.get("instrument"), 1, 65_535)? as u16;
    let gas = number(object.get("gas"), 1, 999_999)? as u32;
    Some(FactBody::Calibration { instrument, gas })
}

#[tactic(auto, unfolding(crate::specs::FactJson::precision))]
fn precision(object: &Value) -> Option<FactBody>
    ensures value { result ≡ spec.precision (view object.now) }
    ensures in_range { IfSome result (λ body. AllByRecursion IsFilled (body_fields body)) }
{
    if !has_only(
        object,
        &["kind", "day", "minute", "instrument", "value", "readings"],
    ) {
        return None;
    }
    let instrument = number(object.get("instrument"), 1, 65_535)? as u16;
    let value = number(object.get("value"), 1, 999_999)? as u32;
    let readings = readings(object.get("readings"))?;
    Some(FactBody::Precision {
        instrument,
        value,
        readings,
    })
}

#[tactic(auto, unfolding(crate::specs::FactJson::drift))]
fn drift(object: &Value) -> Option<FactBody>
    ensures value { result ≡ spec.drift (view object.now) }
    ensures in_range { IfSome result (λ body. AllByRecursion IsFilled (body_fields body)) }
{
    if !has_only(
        object,
        &["kind", "day", "minute", "instrument", "value", "readings"],
    ) {
        return None;
    }
    let instrument = number(object.get("instrument"), 1, 65_535)? as u16;
    let value = number(object.get("value"), 1, 999_999)? as u32;
    let readings = readings(object.get("readings"))?;
    Some(FactBody::Drift {
        instrument,
        value,
        readings,
    })
}

#[tactic(auto, unfolding(crate::specs::FactJson::reading))]
fn reading(object: &Value) -> Option<FactBody>
    ensures value { result ≡ spec.reading (view object.now) }
    ensures in_range { IfSome result (λ body. AllByRecursion IsFilled (body_fields body)) }
{
    if !has_only(
        object,
        &[
            "kind",
            "day",
            "minute",
            "component",
            "instrument",
            "operator",
            "purpose",
            "ppm",
            "background",
        ],
    ) {
        return None;
    }
    let component = number(object.get("component"), 1, 60_000)? as u16;
    let instrument = number_or_none(object.get("instrument"))?;
    let operator = number_or_none(object.get("operator"))?;
    let purpose = purpose(object.get("purpose"))?;
    let ppm = number(object.get("ppm"), 0, 999_999)? as u32;
    let background = number(object.get("background"), 0, 999_999)? as u32;
    Some(FactBody::Reading {
        component,
        instrument,
        operator,
        purpose,
        ppm,
        background,
    })
}

#[tactic(auto, unfolding(crate::specs::FactJson::visual))]
fn visual(object: &Value) -> Option<FactBody>
    ensures value { result ≡ spec.visual (view object.now) }
    ensures in_range { IfSome result (λ body. AllByRecursion IsFilled (body_fields body)) }
{
    if !has_only(object, &["kind", "day", "minute", "component", "state"]) {
        return None;
    }
    let component = number(object.get("component"), 1, 60_000)? as u16;
    let state = state(object.get("state"))?;
    Some(FactBody::Visual { component, state })
}

#[tactic(auto, unfolding(crate::specs::FactJson::attempt))]
fn attempt(object: &Value) -> Option<FactBody>
    ensures value { result ≡ spec.attempt (view object.now) }
    ensures in_range { IfSome result (λ body. AllByRecursion IsFilled (body_fields body)) }
{
    if !has_only(object, &["kind", "day", "minute", "component", "complete"]) {
        return None;
    }
    let component = number(object.get("component"), 1, 60_000)? as u16;
    let complete = flag(object.get("complete"))?;
    Some(FactBody::Attempt {
        component,
        complete,
    })
}

#[tactic(auto, unfolding(crate::specs::FactJson::delay))]
fn delay(object: &Value) -> Option<FactBody>
    ensures value { result ≡ spec.delay (view object.now) }
    ensures in_range { IfSome result (λ body. AllByRecursion IsFilled (body_fields body)) }
{
    if !has_only(
        object,
        &[
            "kind",
            "day",
            "minute",
            "component",
            "ground",
            "signer",
            "expected",
        ],
    ) {
        return None;
    }
    let component = number(object.get("component"), 1, 60_000)? as u16;
    let ground = word(object.get("ground"), &["none", "a", "b", "c", "d", "e"])? as u8;
    let signer = number_or_none(object.get("signer"))?;
    let expected = day_or_none(object.get("expected"))?;
    Some(FactBody::Delay {
        component,
        ground,
        signer,
        expected,
    })
}

#[tactic(auto, unfolding(crate::specs::FactJson::release))]
fn release(object: &Value) -> Option<FactBody>
    ensures value { result ≡ spec.release (view object.now) }
    ensures in_range { IfSome result (λ body. AllByRecursion IsFilled (body_fields body)) }
{
    if !has_only(object, &["kind", "day", "minute", "component"]) {
        return None;
    }
    let component = number(object.get("component"), 1, 60_000)? as u16;
    Some(FactBody::Release { component })
}

#[tactic(auto, unfolding(crate::specs::FactJson::indication))]
fn indication(object: &Value) -> Option<FactBody>
    ensures value { result ≡ spec.indication (view object.now) }
    ensures in_range { IfSome result (λ body. AllByRecursion IsFilled (body_fields body)) }
{
    if !has_only(
        object,
        &["kind", "day", "minute", "component", "sort", "present"],
    ) {
        return None;
    }
    let component = number(object.get("component"), 1, 60_000)? as u16;
    let sort = sort(object.get("sort"))?;
    let present = flag(object.get("present"))?;
    Some(FactBody::Indication {
        component,
        sort,
        present,
    })
}
