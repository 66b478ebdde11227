ghost use Rattle.std.specs.Prelude.{◌≡◌};
ghost use Rattle.ldar_law.specs.Denials as law;

use crate::regime::Regime;
use fact_kinds::{Class, Designation, Kind, Service};

/// Whether a kind of component can have the service (our own rule): a compressor has no liquid service, and a pump has
/// no gas service.
pub fn suits_service(kind: Kind, service: Service) -> bool
    ensures value { result ≡ law.suits_service kind service }
{
    match (kind, service) {
        (Kind::Pump, Service::Gas) => false,
        (Kind::Compressor, Service::Light) => false,
        (Kind::Compressor, Service::Heavy) => false,
        _ => true,
    }
}

/// Whether a component under these rules can have the designation (40 CFR 60.482-2a(e), (g), 60.482-3a(i), 60.482-7a(f)
/// to (h)).
pub fn suits_designation(regime: Regime, designation: Designation) -> bool
    ensures value { result ≡ law.suits_designation regime designation }
{
    match (regime, designation) {
        (_, Designation::Plain) => true,
        (Regime::ValveRules, _) => true,
        (Regime::PumpRules, Designation::Nde) => true,
        (Regime::PumpRules, Designation::Unsafe) => true,
        (Regime::CompressorRules, Designation::Nde) => true,
        _ => false,
    }
}

/// Whether the service and the designation of a class suit a kind of component.
pub fn suits(kind: Kind, class: Class) -> bool
    ensures value { result ≡ law.suits kind class }
{
    suits_service(kind, class.service)
        && suits_designation(Regime::of(kind, class.service), class.designation)
}
