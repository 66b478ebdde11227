//! How the rule treats a component of a class: which of its facts count, and which of them are leaks.

ghost use Rattle.std.specs.Prelude.{◌≡◌};
ghost use Rattle.ldar_law.specs.Limits.{limit_of};
ghost use Rattle.method21_reading.specs.Standings.{rules_of};

use fact_kinds::Class;
use ldar_law::{Equipment, Regime, is_nde_designated, limit};

/// How the rule treats a component of a class.
#[derive(Clone, Copy)]
pub struct Rules {
    /// Its leak definition, in parts per million by volume.
    pub limit: u32,
    /// The rules exclude it (40 CFR 60.482-1a(d), (e)).
    pub left_out: bool,
    /// Its readings can be leaks (40 CFR 60.482-2a(b)(1), 60.482-7a(b), 60.482-8a(b)).
    pub readings_leak: bool,
    /// Its designated drips are leaks (40 CFR 60.482-2a(b)(2)(ii)).
    pub drips_leak: bool,
    /// Its sensor's indications are leaks (40 CFR 60.482-3a(f)).
    pub sensors_leak: bool,
}

impl Rules {
    /// How the rule treats a component of this class. It is inlined, since a call would write the parts one by one and its caller
    /// would read them before they are in memory.
    #[inline(always)]
    pub fn of(item: &Equipment, class: Class) -> Rules
        ensures value { result ≡ rules_of item.now class (limit_of item.now.kind item.now.monomer class) }
    {
        let regime = Regime::of(item.kind, class.service);
        let is_nde = is_nde_designated(class.designation);
        Rules {
            limit: limit(item.kind, item.monomer, class),
            left_out: regime.leave_out(),
            readings_leak: !is_nde
                && (regime.are_valve_rules()
                    || regime.are_pump_rules()
                    || regime.are_heavy_liquid_rules()),
            drips_leak: regime.are_pump_rules() && !is_nde,
            sensors_leak: regime.are_compressor_rules() && !is_nde,
        }
    }
}
