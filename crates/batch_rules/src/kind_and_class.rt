//! Tests of a component's type and class. Each test is false if the component was not entered.

ghost use Rattle.std.specs.Prelude.{◌≡◌, not};
ghost use Rattle.ldar_law.specs.Denials as law;
ghost use Rattle.ldar_law.specs.Kinds as kinds;
ghost use Rattle.ldar_law.specs.Standing as standing;
ghost use Rattle.batch_rules.specs.KindsAndClasses.{is_so};

use fact_kinds::{Class, Kind};
use ldar_law::{Regime, is_pump, is_under_300 as is_short_service, is_vacuum, is_valve, suits};

/// The type of a component and its class on a day, or `None` if the component was not entered.
pub type KindAndClass = Option<(Kind, Class)>;

/// Whether it is in vacuum service (40 CFR 60.482-1a(d)).
pub fn is_in_vacuum(asked: KindAndClass) -> bool
    ensures value { result ≡ is_so (λ kind class. law.is_vacuum class.service) asked }
{
    match asked {
        Some((_, class)) => is_vacuum(class.service),
        None => false,
    }
}

/// Whether it is in VOC service less than 300 hours a year (40 CFR 60.482-1a(e)).
pub fn is_under_300(asked: KindAndClass) -> bool
    ensures value { result ≡ is_so (λ kind class. law.is_under_300 class.service) asked }
{
    match asked {
        Some((_, class)) => is_short_service(class.service),
        None => false,
    }
}

/// Whether it is anything but a pump in light liquid service (40 CFR 60.482-2a).
pub fn is_no_light_pump(asked: KindAndClass) -> bool
    ensures value { result ≡ is_so (law.is_not_under standing.are_pump_rules) asked }
{
    match asked {
        Some((kind, class)) => !Regime::of(kind, class.service).are_pump_rules(),
        None => false,
    }
}

/// Whether it is anything but a compressor in gas service (40 CFR 60.482-3a).
pub fn is_no_gas_compressor(asked: KindAndClass) -> bool
    ensures value { result ≡ is_so (law.is_not_under standing.are_compressor_rules) asked }
{
    match asked {
        Some((kind, class)) => !Regime::of(kind, class.service).are_compressor_rules(),
        None => false,
    }
}

/// Whether it is anything but a relief device in gas service (40 CFR 60.482-4a).
pub fn is_no_gas_relief(asked: KindAndClass) -> bool
    ensures value { result ≡ is_so (law.is_not_under standing.are_relief_rules) asked }
{
    match asked {
        Some((kind, class)) => !Regime::of(kind, class.service).are_relief_rules(),
        None => false,
    }
}

/// Whether the rule on evidence of a potential leak does not apply to it (40 CFR 60.482-8a).
pub fn is_without_evidence(asked: KindAndClass) -> bool
    ensures value { result ≡ is_so (law.is_not_under standing.are_heavy_liquid_rules) asked }
{
    match asked {
        Some((kind, class)) => !Regime::of(kind, class.service).are_heavy_liquid_rules(),
        None => false,
    }
}

/// Whether it is anything but a valve.
pub fn is_no_valve(asked: KindAndClass) -> bool
    ensures value { result ≡ is_so (λ kind class. not (kinds.is_valve kind)) asked }
{
    match asked {
        Some((kind, _)) => !is_valve(kind),
        None => false,
    }
}

/// Whether it is anything but a pump.
pub fn is_no_pump(asked: KindAndClass) -> bool
    ensures value { result ≡ is_so (λ kind class. not (kinds.is_pump kind)) asked }
{
    match asked {
        Some((kind, _)) => !is_pump(kind),
        None => false,
    }
}

/// Whether another class does not suit its type.
pub fn is_unsuited(asked: KindAndClass, other: Class) -> bool
    ensures value { result ≡ is_so (λ kind class. not (law.suits kind other)) asked }
{
    match asked {
        Some((kind, _)) => !suits(kind, other),
        None => false,
    }
}
