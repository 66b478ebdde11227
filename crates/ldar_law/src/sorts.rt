//! Tests of a component's kind, designation and service.

ghost use Rattle.std.specs.Prelude.{◌≡◌};
ghost use Rattle.ldar_law.specs.Denials as denials;
ghost use Rattle.ldar_law.specs.Kinds as law;
ghost use Rattle.ldar_law.specs.Settling as settling;
ghost use Rattle.ldar_law.specs.Spans as spans;
ghost use Rattle.ldar_law.specs.Standing as standing;

use fact_kinds::{Designation, Kind, Service};

/// Whether the component is a valve.
pub fn is_valve(kind: Kind) -> bool
    ensures value { result ≡ spans.is_valve kind }
{
    matches!(kind, Kind::Valve)
}

/// Whether it is a pump.
pub fn is_pump(kind: Kind) -> bool
    ensures value { result ≡ law.is_pump kind }
{
    matches!(kind, Kind::Pump)
}

/// Whether it is a compressor.
pub fn is_compressor(kind: Kind) -> bool
    ensures value { result ≡ law.is_compressor kind }
{
    matches!(kind, Kind::Compressor)
}

/// Whether it is a valve or a pump, for which two clean months settle a delayed leak (40 CFR 60.482-9a(f)).
pub fn is_valve_or_pump(kind: Kind) -> bool
    ensures value { result ≡ settling.is_valve_or_pump kind }
{
    matches!(kind, Kind::Valve | Kind::Pump)
}

/// Whether a component has no designation.
pub fn is_none_designated(designation: Designation) -> bool
    ensures value { result ≡ standing.is_none_designated designation }
{
    matches!(designation, Designation::Plain)
}

/// Whether it is designated for no detectable emissions (40 CFR 60.482-2a(e), 60.482-3a(i), 60.482-7a(f)).
pub fn is_nde_designated(designation: Designation) -> bool
    ensures value { result ≡ standing.is_nde_designated designation }
{
    matches!(designation, Designation::Nde)
}

/// Whether it is designated as unsafe to monitor (40 CFR 60.482-2a(g), 60.482-7a(g)).
pub fn is_unsafe_designated(designation: Designation) -> bool
    ensures value { result ≡ standing.is_unsafe_designated designation }
{
    matches!(designation, Designation::Unsafe)
}

/// Whether it is designated as difficult to monitor (40 CFR 60.482-7a(h)).
pub fn is_difficult_designated(designation: Designation) -> bool
    ensures value { result ≡ standing.is_difficult_designated designation }
{
    matches!(designation, Designation::Difficult)
}

/// Whether the service is vacuum service (40 CFR 60.482-1a(d)).
pub fn is_vacuum(service: Service) -> bool
    ensures value { result ≡ denials.is_vacuum service }
{
    matches!(service, Service::Vacuum)
}

/// Whether the service is VOC service less than 300 hours a year (40 CFR 60.482-1a(e)).
pub fn is_under_300(service: Service) -> bool
    ensures value { result ≡ denials.is_under_300 service }
{
    matches!(service, Service::Under300)
}
