//! Each test, applied to one of each case.
#![tactic(auto)]

ghost use Rattle.std.specs.Prelude.{◌≡◌, None, [], false, filter, is_some, length, map, true, ◌∷◌};
ghost use Rattle.fact_kinds.specs.declared.body.FactBody.TheVariants.{Attempt as AttemptFact, Calibration, Class as ClassFact, Component as ComponentFact};
ghost use Rattle.fact_kinds.specs.declared.body.FactBody.TheVariants.{Delay as DelayFact, Drift, Election, Indication, Precision, Reading};
ghost use Rattle.fact_kinds.specs.declared.body.FactBody.TheVariants.{Release as ReleaseFact, Retire as RetireFact, Shutdown, Unit as UnitFact, Visual};
ghost use Rattle.fact_kinds.specs.declared.body.Purpose.TheVariants.{Routine};
ghost use Rattle.fact_kinds.specs.declared.body.Sort.TheVariants.{Sensor as SensorSort};
ghost use Rattle.fact_kinds.specs.declared.body.VisualState.TheVariants.{Drips};
ghost use Rattle.fact_kinds.specs.declared.class.Designation.TheVariants.{Difficult, Nde, Plain, Unsafe};
ghost use Rattle.fact_kinds.specs.declared.class.Kind.TheVariants.{Compressor, Pump, Relief, Valve};
ghost use Rattle.fact_kinds.specs.declared.class.Service.TheVariants.{Gas, Heavy, Light, Under300, Vacuum};
ghost use Rattle.ldar_law.specs.declared.delay.Until.TheVariants.{Date, NoDate, Shutdown as UntilShutdown, WhileIsolated};
ghost use Rattle.ldar_law.specs.declared.event.Happening.TheVariants.{Attempt, Evidence, Look, Read, Release, Retire, Sensor};
ghost use Rattle.ldar_law.specs.declared.fitness.Fitness.TheVariants.{Fit, GasTooHigh, NoCalibration, NoPrecision, Voided};
ghost use Rattle.ldar_law.specs.declared.regime.Regime.TheVariants.{CompressorRules, HeavyLiquidRules, LeftOut, PumpRules, ReliefRules, ValveRules};
ghost use Rattle.ldar_law.specs.declared.verdict.Verdict.TheVariants.{Denied, Full, Pass};
ghost use Rattle.ldar_law.specs.Delays.{is_past};
ghost use Rattle.ldar_law.specs.Denials.{component_asked, component_looked_at, is_under_300, is_vacuum, suits_designation, suits_service, unit_asked};
ghost use Rattle.ldar_law.specs.Equipment.{retires};
ghost use Rattle.ldar_law.specs.Events.{is_reading};
ghost use Rattle.ldar_law.specs.Fitness.{is_calibration, is_calibration_within, is_drift_past, is_fit, is_passed_precision};
ghost use Rattle.ldar_law.specs.Happenings.{delays_with_reading, has_drips, has_evidence, has_undesignated_drips, is_attempt, is_below, is_complete};
ghost use Rattle.ldar_law.specs.Happenings.{is_counting, is_designating, is_dry, is_evidence_gone, is_leak, is_look, is_near_background};
ghost use Rattle.ldar_law.specs.Happenings.{is_reading_or_drip, is_release, is_retire, is_routine, is_routine_below, is_routine_leak, is_sensor};
ghost use Rattle.ldar_law.specs.Kinds.{is_compressor, is_pump};
ghost use Rattle.ldar_law.specs.Reports.{is_date_in};
ghost use Rattle.ldar_law.specs.Samples.{delay_of_ground, each_designation, each_entry, each_fact, each_happening, each_kind, each_regime, each_service};
ghost use Rattle.ldar_law.specs.Settling.{is_valve_or_pump};
ghost use Rattle.ldar_law.specs.Short.{class, key};
ghost use Rattle.ldar_law.specs.Slices.{facts_of_component, facts_of_instrument, facts_of_unit, is_registered, readings_of_instrument, register_facts};
ghost use Rattle.ldar_law.specs.Spans.{is_valve};
ghost use Rattle.ldar_law.specs.Standing.{are_compressor_rules, are_heavy_liquid_rules, are_pump_rules, are_relief_rules, are_valve_rules};
ghost use Rattle.ldar_law.specs.Standing.{is_difficult_designated, is_nde_designated, is_none_designated, is_unsafe_designated, leave_out};
ghost use Rattle.ldar_law.specs.Verdicts.{is_pass};

/// Which events are leaks, readings, inspections and sensor indications.
pub fn sorts_of_events()
    ensures leak { filter is_leak each_happening ≡ Read 620 0 true true false true ∷ Read 620 0 false true false true ∷ Look true true true
        ∷ Sensor true true ∷ [] }
    ensures reading_or_drip { filter is_reading_or_drip each_happening ≡ Read 20 0 true true true false ∷ Read 620 0 true true false true
        ∷ Read 20 0 true false false false
        ∷ Read 20 0 false true true false ∷ Read 620 0 false true false true ∷ Look false false false ∷ Look true false false ∷ Look true true true
        ∷ [] }
    ensures look { filter is_look each_happening ≡ Look false false false ∷ Look true false false ∷ Look true true true ∷ [] }
    ensures sensor { filter is_sensor each_happening ≡ Sensor true true ∷ Sensor false false ∷ [] }
    ensures release { filter is_release each_happening ≡ Release ∷ [] }
    ensures evidence { filter has_evidence each_happening ≡ Evidence true ∷ [] }
    ensures evidence_gone { filter is_evidence_gone each_happening ≡ Evidence false ∷ [] }
    ensures attempt { filter is_attempt each_happening ≡ Attempt false ∷ Attempt true ∷ [] }
    ensures complete { filter is_complete each_happening ≡ Attempt true ∷ [] }
    ensures retire { filter is_retire each_happening ≡ Retire ∷ [] }
    ensures delay { filter delays_with_reading each_happening ≡ delay_of_ground 1 ∷ delay_of_ground 3 ∷ delay_of_ground 4 ∷ delay_of_ground 5 ∷ [] }
{}

/// Which readings count, are below the leak definition, routine, and near the background.
pub fn sorts_of_readings()
    ensures counting { filter is_counting each_happening ≡ Read 20 0 true true true false ∷ Read 620 0 true true false true
        ∷ Read 20 0 false true true false
        ∷ Read 620 0 false true false true ∷ [] }
    ensures below { filter is_below each_happening ≡ Read 20 0 true true true false ∷ Read 20 0 false true true false ∷ [] }
    ensures routine { filter is_routine each_happening ≡ Read 20 0 true true true false ∷ Read 620 0 true true false true ∷ [] }
    ensures routine_below { filter is_routine_below each_happening ≡ Read 20 0 true true true false ∷ [] }
    ensures routine_leak { filter is_routine_leak each_happening ≡ Read 620 0 true true false true ∷ [] }
    ensures leak_in_vain { is_routine_leak (Read 620 0 true false false true) ≡ false }
    ensures near_background { filter is_near_background each_happening ≡ Read 20 0 true true true false ∷ Read 20 0 false true true false ∷ [] }
{}

/// Which inspections are dry, find drips, and designate them.
pub fn sorts_of_inspections()
    ensures dry { filter is_dry each_happening ≡ Look false false false ∷ [] }
    ensures drips { filter has_drips each_happening ≡ Look true false false ∷ Look true true true ∷ [] }
    ensures designating { filter is_designating each_happening ≡ Look true true true ∷ [] }
    ensures undesignated { filter has_undesignated_drips each_happening ≡ Look true false false ∷ [] }
{}

/// Which facts retire, calibrate, test, drift and enter into the register, and which need a component or a unit.
pub fn sorts_of_facts()
    ensures retires { filter (retires 1) each_fact ≡ RetireFact 1 ∷ [] }
    ensures calibration { filter (is_calibration 1) each_fact ≡ Calibration 1 500 ∷ [] }
    ensures calibration_within { filter (is_calibration_within 1 500) each_fact ≡ Calibration 1 500 ∷ [] }
    ensures precision { filter (is_passed_precision 1) each_fact ≡ Precision 1 500 (500, 500, 500) ∷ [] }
    ensures drift { filter (is_drift_past 1 500 499) each_fact ≡ Drift 1 500 (440, 440, 440) ∷ [] }
    ensures reading { filter is_reading each_fact ≡ Reading 1 1 1 Routine 20 0 ∷ [] }
    ensures registered { filter is_registered each_fact ≡ UnitFact 1 false [] ∷ ComponentFact 1 1 Valve false false (class Gas Plain)
        ∷ ClassFact 1 (class Gas Plain)
        ∷ RetireFact 1 ∷ Election 1 1 1 ∷ Shutdown 1 1 ∷ [] }
    ensures component_asked { filter (λ body. is_some (component_asked body)) each_fact ≡ ClassFact 1 (class Gas Plain) ∷ RetireFact 1
        ∷ Reading 1 1 1 Routine 20 0 ∷ Visual 1 Drips
        ∷ AttemptFact 1 false ∷ DelayFact 1 1 9 None ∷ ReleaseFact 1 ∷ Indication 1 SensorSort true ∷ [] }
    ensures looked_at { filter (λ body. is_some (component_looked_at body)) each_fact ≡ Reading 1 1 1 Routine 20 0 ∷ Visual 1 Drips ∷ [] }
    ensures unit_asked { filter (λ body. is_some (unit_asked body)) each_fact ≡ ComponentFact 1 1 Valve false false (class Gas Plain)
        ∷ Election 1 1 1 ∷ Shutdown 1 1 ∷ [] }
{}

/// The facts that name a component, a process unit, or the instrument of a test or reading.
pub fn parts_of_facts()
    ensures component { map (λ e. e.1.body) (facts_of_component 1 each_entry) ≡ ComponentFact 1 1 Valve false false (class Gas Plain)
        ∷ ClassFact 1 (class Gas Plain) ∷ RetireFact 1
        ∷ Reading 1 1 1 Routine 20 0 ∷ Visual 1 Drips ∷ AttemptFact 1 false ∷ DelayFact 1 1 9 None ∷ ReleaseFact 1 ∷ Indication 1 SensorSort true
        ∷ [] }
    ensures unit { map (λ e. e.1.body) (facts_of_unit 1 each_entry) ≡ UnitFact 1 false [] ∷ ComponentFact 1 1 Valve false false (class Gas Plain)
        ∷ Election 1 1 1 ∷ Shutdown 1 1 ∷ [] }
    ensures instrument { map (λ e. e.1.body) (facts_of_instrument 1 each_entry) ≡ Calibration 1 500 ∷ Precision 1 500 (500, 500, 500)
        ∷ Drift 1 500 (440, 440, 440) ∷ [] }
    ensures readings { map (λ e. e.1.body) (readings_of_instrument 1 each_entry) ≡ Reading 1 1 1 Routine 20 0 ∷ [] }
    ensures register { map (λ e. e.1.body) (register_facts each_entry) ≡ UnitFact 1 false [] ∷ ComponentFact 1 1 Valve false false (class Gas Plain)
        ∷ ClassFact 1 (class Gas Plain)
        ∷ RetireFact 1 ∷ Election 1 1 1 ∷ Shutdown 1 1 ∷ [] }
    ensures others { map (λ part. length part) (facts_of_component 2 each_entry ∷ facts_of_unit 2 each_entry ∷ facts_of_instrument 2 each_entry
        ∷ readings_of_instrument 2 each_entry ∷ [])
        ≡ 0 ∷ 0 ∷ 0 ∷ 0 ∷ [] }
{}

/// Tests of rules, designations, services and kinds.
pub fn sorts_of_components()
    ensures valve_rules { filter are_valve_rules each_regime ≡ ValveRules ∷ [] }
    ensures pump_rules { filter are_pump_rules each_regime ≡ PumpRules ∷ [] }
    ensures compressor_rules { filter are_compressor_rules each_regime ≡ CompressorRules ∷ [] }
    ensures relief_rules { filter are_relief_rules each_regime ≡ ReliefRules ∷ [] }
    ensures heavy_liquid_rules { filter are_heavy_liquid_rules each_regime ≡ HeavyLiquidRules ∷ [] }
    ensures left_out { filter leave_out each_regime ≡ LeftOut ∷ [] }
    ensures plain { filter is_none_designated each_designation ≡ Plain ∷ [] }
    ensures nde { filter is_nde_designated each_designation ≡ Nde ∷ [] }
    ensures unsafe_to_monitor { filter is_unsafe_designated each_designation ≡ Unsafe ∷ [] }
    ensures difficult { filter is_difficult_designated each_designation ≡ Difficult ∷ [] }
    ensures vacuum { filter is_vacuum each_service ≡ Vacuum ∷ [] }
    ensures under_300_hours { filter is_under_300 each_service ≡ Under300 ∷ [] }
    ensures valve { filter is_valve each_kind ≡ Valve ∷ [] }
    ensures pump { filter is_pump each_kind ≡ Pump ∷ [] }
    ensures compressor { filter is_compressor each_kind ≡ Compressor ∷ [] }
    ensures valve_or_pump { filter is_valve_or_pump each_kind ≡ Valve ∷ Pump ∷ [] }
{}

/// Which services and designations suit a kind of component, or the rules that apply to it.
pub fn what_suits()
    ensures valve { filter (suits_service Valve) each_service ≡ each_service }
    ensures pump { filter (suits_service Pump) each_service ≡ Light ∷ Heavy ∷ Vacuum ∷ Under300 ∷ [] }
    ensures compressor { filter (suits_service Compressor) each_service ≡ Gas ∷ Vacuum ∷ Under300 ∷ [] }
    ensures relief_device { filter (suits_service Relief) each_service ≡ each_service }
    ensures valve_rules { filter (suits_designation ValveRules) each_designation ≡ each_designation }
    ensures pump_rules { filter (suits_designation PumpRules) each_designation ≡ Plain ∷ Nde ∷ Unsafe ∷ [] }
    ensures compressor_rules { filter (suits_designation CompressorRules) each_designation ≡ Plain ∷ Nde ∷ [] }
    ensures relief_rules { filter (suits_designation ReliefRules) each_designation ≡ Plain ∷ [] }
    ensures heavy_liquid_rules { filter (suits_designation HeavyLiquidRules) each_designation ≡ Plain ∷ [] }
    ensures left_out { filter (suits_designation LeftOut) each_designation ≡ Plain ∷ [] }
{}

/// Which fitnesses are fit, which verdicts are passes, and which due days are past.
pub fn sorts_of_answers()
    ensures fit { map is_fit (Fit ∷ NoCalibration ∷ GasTooHigh ∷ NoPrecision ∷ Voided (key 1 1) ∷ []) ≡ true ∷ false ∷ false ∷ false ∷ false ∷ [] }
    ensures pass { map is_pass (Pass ∷ Denied 1 1 ∷ Full 8_000_001 ∷ []) ≡ true ∷ false ∷ false ∷ [] }
    ensures past { map (is_past 10) (Date 9 ∷ Date 10 ∷ Date 11 ∷ UntilShutdown ∷ WhileIsolated ∷ NoDate ∷ []) ≡ true ∷ false ∷ false ∷ false ∷ false
        ∷ false ∷ [] }
    ensures in_month { map (is_date_in 0) (UntilShutdown ∷ WhileIsolated ∷ NoDate ∷ []) ≡ false ∷ false ∷ false ∷ [] }
{}
