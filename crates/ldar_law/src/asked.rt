//! The component and the process unit that each kind of fact needs.

ghost use Rattle.std.specs.Prelude.{◌≡◌};
ghost use Rattle.ldar_law.specs.Denials as law;
ghost use Rattle.ldar_law.specs.Slices.{is_registered as says_registered};

use fact_kinds::FactBody;

/// Whether a fact is an entry in the register.
pub fn is_registered(body: &FactBody) -> bool
    ensures value { result ≡ says_registered body.now }
{
    match *body {
        FactBody::Unit { .. }
        | FactBody::Component { .. }
        | FactBody::Class { .. }
        | FactBody::Retire { .. }
        | FactBody::Election { .. }
        | FactBody::Shutdown { .. } => true,
        FactBody::Calibration { .. }
        | FactBody::Precision { .. }
        | FactBody::Drift { .. }
        | FactBody::Reading { .. }
        | FactBody::Visual { .. }
        | FactBody::Attempt { .. }
        | FactBody::Delay { .. }
        | FactBody::Release { .. }
        | FactBody::Indication { .. } => false,
    }
}

/// The component that a fact needs, which must have been entered (40 CFR 60.486a(e)(1)).
pub fn component_asked(body: &FactBody) -> Option<u16>
    ensures value { result ≡ law.component_asked body.now }
{
    match *body {
        FactBody::Class { component, .. }
        | FactBody::Retire { component }
        | FactBody::Reading { component, .. }
        | FactBody::Visual { component, .. }
        | FactBody::Attempt { component, .. }
        | FactBody::Delay { component, .. }
        | FactBody::Release { component }
        | FactBody::Indication { component, .. } => Some(component),
        FactBody::Unit { .. }
        | FactBody::Component { .. }
        | FactBody::Election { .. }
        | FactBody::Shutdown { .. }
        | FactBody::Calibration { .. }
        | FactBody::Precision { .. }
        | FactBody::Drift { .. } => None,
    }
}

/// The process unit that a fact needs, which must have been entered (our own rule).
pub fn unit_asked(body: &FactBody) -> Option<u8>
    ensures value { result ≡ law.unit_asked body.now }
{
    match *body {
        FactBody::Component { unit, .. }
        | FactBody::Election { unit, .. }
        | FactBody::Shutdown { unit, .. } => Some(unit),
        FactBody::Unit { .. }
        | FactBody::Class { .. }
        | FactBody::Retire { .. }
        | FactBody::Calibration { .. }
        | FactBody::Precision { .. }
        | FactBody::Drift { .. }
        | FactBody::Reading { .. }
        | FactBody::Visual { .. }
        | FactBody::Attempt { .. }
        | FactBody::Delay { .. }
        | FactBody::Release { .. }
        | FactBody::Indication { .. } => None,
    }
}
