//! The register, and leak definitions.
#![tactic(auto, unfolding(ldar_days::specs::Calendar::first_day, ldar_days::specs::Calendar::month_of, ldar_days::specs::Calendar::month_length))]

ghost use Rattle.std.specs.Prelude.{◌≡◌, None, Some, [], codes, false, map, true, ◌∷◌};
ghost use Rattle.fact_kinds.specs.Facts.{facts_of, facts_to};
ghost use Rattle.fact_kinds.specs.declared.class.Kind.TheVariants.{Compressor, Pump, Relief, Valve};
ghost use Rattle.fact_kinds.specs.declared.class.Service.TheVariants.{Gas, Heavy, Light, Under300, Vacuum};
ghost use Rattle.ldar_law.specs.declared.regime.Regime.TheVariants.{CompressorRules, HeavyLiquidRules, LeftOut, PumpRules, ReliefRules, ValveRules};
ghost use Rattle.ldar_law.specs.Equipment.{elections_of, equipment_of, members_of, stops_of, unit_entry_of};
ghost use Rattle.ldar_law.specs.Force.{class_in_force};
ghost use Rattle.ldar_law.specs.Limits.{limit_of, regime_of};
ghost use Rattle.ldar_law.specs.Short.{date};
ghost use Rattle.ldar_law.specs.SmallRegister.{elections, plain, reaches, retired_valve, serves, service_on};
ghost use Rattle.ldar_law.specs.SmallRegister.{shutdowns, three_units, two_classes, two_units, valve_that_changes};

/// Readings just below the leak definition and at it.
pub fn limits_at_the_edges()
    ensures valve { map (reaches Valve false Gas) (499 ∷ 500 ∷ []) ≡ false ∷ true ∷ [] }
    ensures valve_in_liquid { map (reaches Valve false Light) (499 ∷ 500 ∷ []) ≡ false ∷ true ∷ [] }
    ensures pump { map (reaches Pump false Light) (1_999 ∷ 2_000 ∷ []) ≡ false ∷ true ∷ [] }
    ensures pump_of_monomers { map (reaches Pump true Light) (4_999 ∷ 5_000 ∷ []) ≡ false ∷ true ∷ [] }
    ensures heavy_liquid { map (reaches Pump false Heavy) (9_999 ∷ 10_000 ∷ []) ≡ false ∷ true ∷ [] }
    ensures relief_device { reaches Relief false Light 9_999 ≡ false }
    ensures relief_device_in_gas { reaches Relief false Gas 500 ≡ true }
    ensures compressor { limit_of Compressor false (plain Gas) ≡ 500 }
    ensures vacuum { limit_of Valve false (plain Vacuum) ≡ 500 }
{}

/// The rules that apply to each kind, by its service.
pub fn rules_of_each_kind()
    ensures valve { map (regime_of Valve) (Gas ∷ Light ∷ Heavy ∷ Vacuum ∷ Under300 ∷ []) ≡ ValveRules ∷ ValveRules ∷ HeavyLiquidRules ∷ LeftOut
        ∷ LeftOut ∷ [] }
    ensures pump { map (regime_of Pump) (Gas ∷ Light ∷ Heavy ∷ Vacuum ∷ Under300 ∷ []) ≡ LeftOut ∷ PumpRules ∷ HeavyLiquidRules ∷ LeftOut ∷ LeftOut
        ∷ [] }
    ensures compressor { map (regime_of Compressor) (Gas ∷ Light ∷ Heavy ∷ Vacuum ∷ Under300 ∷ []) ≡ CompressorRules ∷ LeftOut ∷ LeftOut ∷ LeftOut
        ∷ LeftOut ∷ [] }
    ensures relief_device { map (regime_of Relief) (Gas ∷ Light ∷ Heavy ∷ Vacuum ∷ Under300 ∷ []) ≡ ReliefRules ∷ HeavyLiquidRules ∷ HeavyLiquidRules
        ∷ LeftOut ∷ LeftOut ∷ [] }
{}

/// A class is in force from the day of its fact on.
pub fn class_from_its_day_on()
    ensures { map (service_on valve_that_changes) (date 2019 4 14 ∷ date 2020 2 7 ∷ date 2020 2 8 ∷ date 2020 2 9 ∷ []) ≡ Some Gas ∷ Some Gas
        ∷ Some Heavy ∷ Some Heavy ∷ [] }
{}

/// If two classes are entered on one day, the one with the greater key is in force.
pub fn last_of_the_day_is_in_force()
    ensures { map (service_on two_classes) (date 2020 2 7 ∷ date 2020 2 8 ∷ []) ≡ Some Gas ∷ Some Heavy ∷ [] }
{}

/// A component is in service from its beginning to the day before its first retirement, as known on the view day.
pub fn in_service_until_retired()
    ensures by_day { map (serves retired_valve (date 2020 5 18)) (date 2020 1 31 ∷ date 2020 2 1 ∷ date 2020 2 10 ∷ date 2020 2 11 ∷ []) ≡ Some false
        ∷ Some true ∷ Some true ∷ Some false ∷ [] }
    ensures not_yet_known { serves retired_valve (date 2020 2 10) (date 2020 2 11) ≡ Some true }
    ensures not_yet_entered { serves retired_valve (date 2020 1 31) (date 2020 2 1) ≡ None }
    ensures others_retired { serves two_units (date 2020 5 18) (date 2020 5 18) ≡ Some true }
{}

/// The components of a process unit are in order of their numbers and include retired ones.
pub fn members_ascend()
    ensures unit_1 { members_of 1 (facts_of two_units) ≡ 3 ∷ 7 ∷ 9 ∷ [] }
    ensures unit_2 { members_of 2 (facts_of two_units) ≡ 5 ∷ [] }
    ensures unit_3 { members_of 3 (facts_of two_units) ≡ [] }
    ensures first_day { members_of 1 (facts_to (date 2020 2 1) two_units) ≡ 3 ∷ 9 ∷ [] }
{}

/// A number that no fact enters has no component, class or unit.
pub fn nothing_of_unknown_numbers()
    ensures component { equipment_of 4 (facts_of two_units) ≡ None }
    ensures class { class_in_force 4 (facts_of two_units) (date 2020 5 18) ≡ None }
    ensures unit { unit_entry_of 1 (facts_of two_units) ≡ None }
    ensures other_unit { unit_entry_of 2 (facts_of valve_that_changes) ≡ None }
{}

/// A process unit starts up on the day of its entry.
pub fn units_of_a_register()
    ensures first { unit_entry_of 3 (facts_of three_units) ≡ Some (record { unit = 3; name = codes "U-3"; startup = date 2020 1 15; older = false }) }
    ensures second { unit_entry_of 1 (facts_of three_units)
        ≡ Some (record { unit = 1; name = codes "U-1"; startup = date 2020 1 16; older = false }) }
    ensures third { unit_entry_of 2 (facts_of three_units) ≡ Some (record { unit = 2; name = codes "U-2"; startup = date 2020 1 17; older = true }) }
{}

/// The shutdowns of a unit are in order of their first days and end within the calendar.
pub fn shutdowns_in_order()
    ensures unit_1 { stops_of 1 (facts_of shutdowns) ≡ record { first = date 2020 3 1; last = date 2020 3 30 }
        ∷ record { first = date 2099 12 30; last = date 2099 12 31 } ∷ [] }
    ensures unit_2 { stops_of 2 (facts_of shutdowns) ≡ record { first = date 2020 4 1; last = date 2020 4 5 } ∷ [] }
    ensures unit_3 { stops_of 3 (facts_of shutdowns) ≡ record { first = date 2020 5 1; last = date 2020 5 7 } ∷ [] }
{}

/// The elections of a unit.
pub fn elections_of_units()
    ensures unit_1 { map (λ e. e.mode) (elections_of 1 (facts_of elections)) ≡ 1 ∷ [] }
    ensures unit_2 { map (λ e. e.mode) (elections_of 2 (facts_of elections)) ≡ 3 ∷ [] }
    ensures unit_3 { map (λ e. e.mode) (elections_of 3 (facts_of elections)) ≡ 0 ∷ [] }
{}
