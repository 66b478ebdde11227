//! The office's own rules, on entries in the register and on days.

ghost use Rattle.std.specs.Prelude.{◌≡◌};
ghost use Rattle.ldar_law.specs.Denials as law;

use crate::case::Case;
use crate::kind_and_class::is_unsuited;
use fact_kinds::FactBody;
use ldar_law::{LAST_FACT_DAY, is_registered, suits, unit_asked};

/// Rule 16 (our own): a handheld other than 0, which is the office's own, makes an entry in the register.
pub fn entered_by_a_handheld(case: &Case) -> bool
    ensures value { result ≡ law.entered_by_a_handheld case.now }
{
    is_registered(case.body()) && case.handheld() > 0
}

/// Rule 17 (our own): the unit was not entered.
pub fn unit_unknown(case: &Case) -> bool
    ensures value { result ≡ law.unit_unknown case.now }
{
    match unit_asked(case.body()) {
        Some(unit) => case.known().unit(unit).is_none(),
        None => false,
    }
}

/// Rule 18 (our own): a unit or a component is entered a second time.
pub fn entered_twice(case: &Case) -> bool
    ensures value { result ≡ law.entered_twice case.now }
{
    match *case.body() {
        FactBody::Unit { unit, .. } => case.known().unit(unit).is_some(),
        FactBody::Component { component, .. } => case.known().component(component).is_some(),
        _ => false,
    }
}

/// Rule 19 (our own): the fact's day is past 2097-12-31.
pub fn day_too_late(case: &Case) -> bool
    ensures value { result ≡ law.day_too_late case.now }
{
    case.day().number() > LAST_FACT_DAY
}

/// Rule 21 (our own): the service or the designation does not suit the type of component.
pub fn class_unsuited(case: &Case) -> bool
    ensures value { result ≡ law.class_unsuited case.now }
{
    match *case.body() {
        FactBody::Component { kind, class, .. } => !suits(kind, class),
        FactBody::Class { class, .. } => is_unsuited(case.asked(), class),
        _ => false,
    }
}
