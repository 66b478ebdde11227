//! The rules on components (40 CFR 60.482-1a to 60.482-8a, 60.486a). Each depends on the component's type, and on its
//! class on the fact's day.

ghost use Rattle.std.specs.Prelude.{◌≡◌, not};
ghost use Rattle.ldar_law.specs.Denials as law;

use crate::case::Case;
use crate::kind_and_class::{
    is_in_vacuum, is_no_gas_compressor, is_no_gas_relief, is_no_light_pump, is_under_300,
    is_without_evidence,
};
use fact_kinds::{FactBody, Sort};
use ldar_law::component_asked;

/// Rule 1 (40 CFR 60.486a(e)(1)): the component was not entered.
pub fn component_unknown(case: &Case) -> bool
    ensures value { result ≡ law.component_unknown case.now }
{
    match component_asked(case.body()) {
        Some(_) => case.asked().is_none(),
        None => false,
    }
}

/// The component of a reading or a visual inspection.
fn component_looked_at(body: &FactBody) -> Option<u16>
    ensures value { result ≡ law.component_looked_at body.now }
{
    match *body {
        FactBody::Reading { component, .. } => Some(component),
        FactBody::Visual { component, .. } => Some(component),
        _ => None,
    }
}

/// Rule 2 (40 CFR 60.482-1a(d)): a reading or a visual inspection in vacuum service.
pub fn looked_in_vacuum(case: &Case) -> bool
    ensures value { result ≡ law.looked_in_vacuum case.now }
{
    match component_looked_at(case.body()) {
        Some(_) => is_in_vacuum(case.asked()),
        None => false,
    }
}

/// Rule 3 (40 CFR 60.482-1a(e)): a reading or a visual inspection in VOC service less than 300 hours a year.
pub fn looked_under_300_hours(case: &Case) -> bool
    ensures value { result ≡ law.looked_under_300_hours case.now }
{
    match component_looked_at(case.body()) {
        Some(_) => is_under_300(case.asked()),
        None => false,
    }
}

/// Rule 4 (40 CFR 60.486a(a)(3)): a reading without its instrument or its operator.
pub fn reading_unsigned(case: &Case) -> bool
    ensures value { result ≡ law.reading_unsigned case.now }
{
    match *case.body() {
        FactBody::Reading {
            instrument,
            operator,
            ..
        } => instrument == 0 || operator == 0,
        _ => false,
    }
}

/// Rule 5 (40 CFR 60.482-2a(a)(2)): a visual inspection of anything but a pump in light liquid service.
pub fn no_pump_to_see(case: &Case) -> bool
    ensures value { result ≡ law.no_pump_to_see case.now }
{
    match *case.body() {
        FactBody::Visual { .. } => is_no_light_pump(case.asked()),
        _ => false,
    }
}

/// Whether it is an indication of a sensor.
fn is_of_sensor(sort: Sort) -> bool
    ensures value { result ≡ law.is_of_sensor sort }
{
    matches!(sort, Sort::Sensor)
}

/// Whether it is evidence of a potential leak.
fn is_of_evidence(sort: Sort) -> bool
    ensures value { result ≡ not (law.is_of_sensor sort) }
{
    matches!(sort, Sort::Evidence)
}

/// Rule 6 (40 CFR 60.482-3a(f)): a sensor's indication at anything but a compressor in gas service.
pub fn no_compressor_to_sense(case: &Case) -> bool
    ensures value { result ≡ law.no_compressor_to_sense case.now }
{
    match *case.body() {
        FactBody::Indication { sort, .. } => {
            is_of_sensor(sort) && is_no_gas_compressor(case.asked())
        }
        _ => false,
    }
}

/// Rule 7 (40 CFR 60.482-4a(b)): a pressure release of anything but a relief device in gas service.
pub fn no_relief_device(case: &Case) -> bool
    ensures value { result ≡ law.no_relief_device case.now }
{
    match *case.body() {
        FactBody::Release { .. } => is_no_gas_relief(case.asked()),
        _ => false,
    }
}

/// Rule 8 (40 CFR 60.482-8a(a)): evidence of a potential leak at a component to which the rule on evidence does not apply.
pub fn no_evidence_counts(case: &Case) -> bool
    ensures value { result ≡ law.no_evidence_counts case.now }
{
    match *case.body() {
        FactBody::Indication { sort, .. } => {
            is_of_evidence(sort) && is_without_evidence(case.asked())
        }
        _ => false,
    }
}
