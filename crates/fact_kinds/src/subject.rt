ghost use Rattle.std.specs.Prelude.{◌≡◌};
ghost use Rattle.fact_kinds.specs.Named as named;

use crate::body::FactBody;

/// The component of a fact, or `None` for a kind without one.
pub fn component_of(body: &FactBody) -> Option<u16>
    ensures value { result ≡ named.component_of body.now }
{
    match *body {
        FactBody::Component { component, .. }
        | FactBody::Class { component, .. }
        | FactBody::Retire { component }
        | FactBody::Reading { component, .. }
        | FactBody::Visual { component, .. }
        | FactBody::Attempt { component, .. }
        | FactBody::Delay { component, .. }
        | FactBody::Release { component }
        | FactBody::Indication { component, .. } => Some(component),
        FactBody::Unit { .. }
        | FactBody::Election { .. }
        | FactBody::Shutdown { .. }
        | FactBody::Calibration { .. }
        | FactBody::Precision { .. }
        | FactBody::Drift { .. } => None,
    }
}

/// The process unit of a fact, or `None` for a kind without one.
pub fn unit_of(body: &FactBody) -> Option<u8>
    ensures value { result ≡ named.unit_of body.now }
{
    match *body {
        FactBody::Unit { unit, .. }
        | FactBody::Component { unit, .. }
        | FactBody::Election { unit, .. }
        | FactBody::Shutdown { unit, .. } => Some(unit),
        FactBody::Class { .. }
        | FactBody::Retire { .. }
        | FactBody::Calibration { .. }
        | FactBody::Precision { .. }
        | FactBody::Drift { .. }
        | FactBody::Reading { .. }
        | FactBody::Visual { .. }
        | FactBody::Attempt { .. }
        | FactBody::Delay { .. }
        | FactBody::Release { .. }
        | FactBody::Indication { .. } => None,
    }
}

/// The instrument of a calibration, a precision test or a drift assessment; `None` for every other kind.
pub fn tested_instrument(body: &FactBody) -> Option<u16>
    ensures value { result ≡ named.tested_instrument body.now }
{
    match *body {
        FactBody::Calibration { instrument, .. }
        | FactBody::Precision { instrument, .. }
        | FactBody::Drift { instrument, .. } => Some(instrument),
        FactBody::Unit { .. }
        | FactBody::Component { .. }
        | FactBody::Class { .. }
        | FactBody::Retire { .. }
        | FactBody::Election { .. }
        | FactBody::Shutdown { .. }
        | FactBody::Reading { .. }
        | FactBody::Visual { .. }
        | FactBody::Attempt { .. }
        | FactBody::Delay { .. }
        | FactBody::Release { .. }
        | FactBody::Indication { .. } => None,
    }
}

/// The instrument of a reading, 0 if it has none; `None` for every other kind.
pub fn reading_instrument(body: &FactBody) -> Option<u16>
    ensures value { result ≡ named.reading_instrument body.now }
{
    match *body {
        FactBody::Reading { instrument, .. } => Some(instrument),
        FactBody::Unit { .. }
        | FactBody::Component { .. }
        | FactBody::Class { .. }
        | FactBody::Retire { .. }
        | FactBody::Election { .. }
        | FactBody::Shutdown { .. }
        | FactBody::Calibration { .. }
        | FactBody::Precision { .. }
        | FactBody::Drift { .. }
        | FactBody::Visual { .. }
        | FactBody::Attempt { .. }
        | FactBody::Delay { .. }
        | FactBody::Release { .. }
        | FactBody::Indication { .. } => None,
    }
}
