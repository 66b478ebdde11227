ghost use Rattle.std.specs.Prelude.{◌≡◌, ◌≤◌, IfSome, option_map};
ghost use Rattle.std.specs.List.{AllByRecursion};
ghost use Rattle.fact_kinds.specs.Fields.{IsAmong, IsFilled, class_fields, plans};
ghost use Rattle.register_import.specs.Fields as spec;

use csv_rows::number;
use fact_kinds::{Class, Designation, Kind, Service};

/// A flag: 0 for no, 1 for yes.
#[tactic(auto, unfolding(crate::specs::Fields::flag))]
pub(crate) fn flag(field: Option<&[u8]>) -> Option<bool>
    ensures value { result ≡ spec.flag (option_map (λ f. f.now) field.entry) }
{
    let text = field?;
    if text == b"0".as_slice() {
        Some(false)
    } else if text == b"1".as_slice() {
        Some(true)
    } else {
        None
    }
}

/// A component's type.
#[tactic(auto, unfolding(crate::specs::Fields::kind))]
pub(crate) fn kind(field: Option<&[u8]>) -> Option<Kind>
    ensures value { result ≡ spec.kind (option_map (λ f. f.now) field.entry) }
{
    let text = field?;
    if text == b"valve".as_slice() {
        Some(Kind::Valve)
    } else if text == b"pump".as_slice() {
        Some(Kind::Pump)
    } else if text == b"compressor".as_slice() {
        Some(Kind::Compressor)
    } else if text == b"relief".as_slice() {
        Some(Kind::Relief)
    } else {
        None
    }
}

/// A component's service.
#[tactic(auto, unfolding(crate::specs::Fields::service))]
pub(crate) fn service(field: Option<&[u8]>) -> Option<Service>
    ensures value { result ≡ spec.service (option_map (λ f. f.now) field.entry) }
{
    let text = field?;
    if text == b"gas".as_slice() {
        Some(Service::Gas)
    } else if text == b"light".as_slice() {
        Some(Service::Light)
    } else if text == b"heavy".as_slice() {
        Some(Service::Heavy)
    } else if text == b"vacuum".as_slice() {
        Some(Service::Vacuum)
    } else if text == b"under300".as_slice() {
        Some(Service::Under300)
    } else {
        None
    }
}

/// A component's designation.
#[tactic(auto, unfolding(crate::specs::Fields::designation))]
pub(crate) fn designation(field: Option<&[u8]>) -> Option<Designation>
    ensures value { result ≡ spec.designation (option_map (λ f. f.now) field.entry) }
{
    let text = field?;
    if text == b"none".as_slice() {
        Some(Designation::Plain)
    } else if text == b"nde".as_slice() {
        Some(Designation::Nde)
    } else if text == b"unsafe".as_slice() {
        Some(Designation::Unsafe)
    } else if text == b"difficult".as_slice() {
        Some(Designation::Difficult)
    } else {
        None
    }
}

// The months of a plan, in the range that the designation allows.
fn plan(designation: Designation, field: Option<&[u8]>) -> Option<u32>
    ensures value { result ≡ spec.plan designation (option_map (λ f. f.now) field.entry) }
    ensures among { IfSome result (λ n. IsAmong n (plans designation)) }
    ensures in_range { IfSome result (λ n. n ≤ 60) }
{
    match designation {
        Designation::Plain => number(field, 0, 0),
        Designation::Nde => number(field, 0, 0),
        Designation::Unsafe => number(field, 1, 60),
        Designation::Difficult => number(field, 0, 0),
    }
}

/// A component's class, from four fields.
#[tactic(auto, unfolding(crate::specs::Fields::class))]
pub(crate) fn class(
    service_field: Option<&[u8]>,
    designation_field: Option<&[u8]>,
    plan_field: Option<&[u8]>,
    month_field: Option<&[u8]>,
) -> Option<Class>
    ensures value { result ≡ spec.class (option_map (λ f. f.now) service_field.entry) (option_map (λ f. f.now) designation_field.entry)
        (option_map (λ f. f.now) plan_field.entry) (option_map (λ f. f.now) month_field.entry) }
    ensures in_range { IfSome result (λ class. AllByRecursion IsFilled (class_fields class)) }
{
    let service = service(service_field)?;
    let designation = designation(designation_field)?;
    let plan = plan(designation, plan_field)? as u8;
    let month = number(month_field, 1, 3)? as u8;
    Some(Class {
        service,
        designation,
        plan,
        month,
    })
}
