ghost use Rattle.std.specs.Prelude.{◌≡◌};
ghost use Rattle.ldar_law.specs.Limits.{limit_of};

use crate::regime::Regime;
use fact_kinds::{Class, Kind};

/// The leak definition of a component with this class, in parts per million by volume (40 CFR 60.482-2a(b)(1),
/// 60.482-7a(b), 60.482-8a(b)). It is higher for a pump that handles polymerizing monomers, and 500 if the rules set
/// none (our own rule).
pub fn limit(kind: Kind, monomer: bool, class: Class) -> u32
    ensures value { result ≡ limit_of kind monomer class }
{
    match Regime::of(kind, class.service) {
        Regime::PumpRules => { if monomer { 5_000 } else { 2_000 } }
        Regime::HeavyLiquidRules => 10_000,
        _ => 500,
    }
}
