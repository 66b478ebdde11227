//! The facts of a component as events, each judged on its own day by the class of that day.
#![tactic(auto, unfolding(ldar_days::specs::Calendar::first_day, ldar_days::specs::Calendar::month_of, ldar_days::specs::Calendar::month_length, crate::specs::Events::events_in))]

ghost use Rattle.std.specs.Prelude.{◌≡◌, None, [], false, map, true, ◌∷◌};
ghost use Rattle.std.specs.List.{filter_map};
ghost use Rattle.fact_kinds.specs.declared.body.FactBody.TheVariants.{Attempt as AttemptFact, Class as ClassFact, Delay as DelayFact};
ghost use Rattle.fact_kinds.specs.declared.body.FactBody.TheVariants.{Indication, Reading, Release as ReleaseFact, Retire as RetireFact, Visual};
ghost use Rattle.fact_kinds.specs.declared.body.Purpose.TheVariants.{FollowUp, Routine};
ghost use Rattle.fact_kinds.specs.declared.body.Sort.TheVariants.{Evidence as EvidenceSort, Sensor as SensorSort};
ghost use Rattle.fact_kinds.specs.declared.body.VisualState.TheVariants.{Designated, Drips, Dry};
ghost use Rattle.fact_kinds.specs.declared.class.Designation.TheVariants.{Nde, Plain};
ghost use Rattle.fact_kinds.specs.declared.class.Kind.TheVariants.{Compressor, Pump, Valve};
ghost use Rattle.fact_kinds.specs.declared.class.Service.TheVariants.{Gas, Heavy, Light, Vacuum};
ghost use Rattle.ldar_law.specs.declared.event.Happening.TheVariants.{Attempt, Delay, Evidence, Look, Read, Release, Retire, Sensor};
ghost use Rattle.ldar_law.specs.declared.fitness.Fitness.TheVariants.{Fit, NoCalibration, NoPrecision};
ghost use Rattle.ldar_law.specs.Events.{events_with, fitness_in};
ghost use Rattle.ldar_law.specs.Short.{calibrated_twice, class, compressor, date, entered_on, events_on};
ghost use Rattle.ldar_law.specs.Short.{events_with_gas, gear, lowered, pump, read_while_lowered, relief, three_readings, valve};

/// A reading as an event has its numbers, its purpose, whether it counts, and whether it is below the leak definition
/// or a leak.
pub fn a_reading_as_an_event()
    ensures below { events_on (valve 1 (date 2020 1 15)) [] (Reading 1 1 1 Routine 499 30) ≡ Read 499 30 true true true false ∷ [] }
    ensures at_the_limit { events_on (valve 1 (date 2020 1 15)) [] (Reading 1 1 1 FollowUp 500 30) ≡ Read 500 30 false true false true ∷ [] }
    ensures compressor { events_on (compressor 9 (date 2020 1 15)) [] (Reading 9 1 1 Routine 500 30) ≡ Read 500 30 true true false false ∷ [] }
    ensures other_instrument { events_on (valve 1 (date 2020 1 15)) [] (Reading 1 2 1 Routine 499 30) ≡ Read 499 30 true false false false ∷ [] }
    ensures vacuum { events_on (gear 1 Valve (class Vacuum Plain) (date 2020 1 15)) [] (Reading 1 1 1 Routine 499 30)
        ≡ Read 499 30 true false false false ∷ [] }
    ensures not_in_service { events_on (valve 1 (date 2024 2 21)) [] (Reading 1 1 1 Routine 499 30) ≡ Read 499 30 true false false false ∷ [] }
{}

/// A visual inspection is dry, finds drips or designates them; at a pump in light liquid service, designated drips are
/// a leak.
pub fn a_visual_inspection_as_an_event()
    ensures dry { events_on (pump 5 (date 2020 1 15)) [] (Visual 5 Dry) ≡ Look false false false ∷ [] }
    ensures drips { events_on (pump 5 (date 2020 1 15)) [] (Visual 5 Drips) ≡ Look true false false ∷ [] }
    ensures designated { events_on (pump 5 (date 2020 1 15)) [] (Visual 5 Designated) ≡ Look true true true ∷ [] }
    ensures not_in_service { events_on (pump 5 (date 2024 2 21)) [] (Visual 5 Designated) ≡ Look true true false ∷ [] }
    ensures nde { events_on (gear 5 Pump (class Light Nde) (date 2020 1 15)) [] (Visual 5 Designated) ≡ Look true true false ∷ [] }
{}

/// The other facts of a component; entries in the register and facts of other components are no events of it.
pub fn other_facts_as_events()
    ensures attempt { events_on (valve 1 (date 2020 1 15)) [] (AttemptFact 1 true) ≡ Attempt true ∷ [] }
    ensures delay { events_on (valve 1 (date 2020 1 15)) [] (DelayFact 1 2 9 None) ≡ Delay 2 9 None ∷ [] }
    ensures release { events_on (relief 8 (date 2020 1 15)) [] (ReleaseFact 8) ≡ Release ∷ [] }
    ensures retire { events_on (valve 1 (date 2020 1 15)) [] (RetireFact 1) ≡ Retire ∷ [] }
    ensures evidence { events_on (gear 7 Pump (class Heavy Plain) (date 2020 1 15)) [] (Indication 7 EvidenceSort false) ≡ Evidence false ∷ [] }
    ensures class { events_on (valve 1 (date 2020 1 15)) [] (ClassFact 1 (class Gas Nde)) ≡ [] }
    ensures of_another { events_on (valve 1 (date 2020 1 15)) [] (AttemptFact 2 true) ≡ [] }
{}

/// A sensor's indication is a leak at a compressor in gas service that is in service.
pub fn an_indication_as_an_event()
    ensures compressor { events_on (compressor 9 (date 2020 1 15)) [] (Indication 9 SensorSort true) ≡ Sensor true true ∷ [] }
    ensures silent { events_on (compressor 9 (date 2020 1 15)) [] (Indication 9 SensorSort false) ≡ Sensor false false ∷ [] }
    ensures not_in_service { events_on (compressor 9 (date 2024 2 21)) [] (Indication 9 SensorSort true) ≡ Sensor true false ∷ [] }
    ensures pump { events_on (pump 5 (date 2020 1 15)) [] (Indication 5 SensorSort true) ≡ Sensor true false ∷ [] }
{}

/// An event is judged by the class of its day, not by the class of the component's entry or of a later day.
pub fn an_event_by_the_class_of_its_day()
    ensures valve { events_on (gear 1 Valve (class Heavy Plain) (date 2020 1 15)) (entered_on (date 2024 2 1) (class Gas Plain)
        ∷ entered_on (date 2024 2 21) (class Heavy Plain) ∷ [])
        (Reading 1 1 1 Routine 620 30) ≡ Read 620 30 true true false true ∷ [] }
    ensures designation { events_on (gear 1 Valve (class Gas Nde) (date 2020 1 15)) (entered_on (date 2024 2 1) (class Gas Plain)
        ∷ entered_on (date 2024 2 21) (class Gas Nde) ∷ [])
        (Reading 1 1 1 Routine 620 30) ≡ Read 620 30 true true false true ∷ [] }
    ensures pump { events_on (gear 5 Pump (class Heavy Plain) (date 2020 1 15)) (entered_on (date 2024 2 1) (class Light Plain)
        ∷ entered_on (date 2024 2 21) (class Heavy Plain) ∷ [])
        (Reading 5 1 1 Routine 2100 30) ≡ Read 2100 30 true true false true ∷ [] }
    ensures heavy_liquid { events_on (gear 5 Pump (class Vacuum Plain) (date 2020 1 15)) (entered_on (date 2024 2 1) (class Heavy Plain)
        ∷ entered_on (date 2024 2 21) (class Vacuum Plain) ∷ [])
        (Reading 5 1 1 Routine 12_000 30) ≡ Read 12_000 30 true true false true ∷ [] }
    ensures drip { events_on (gear 5 Pump (class Heavy Nde) (date 2020 1 15)) (entered_on (date 2024 2 1) (class Light Plain)
        ∷ entered_on (date 2024 2 21) (class Heavy Nde) ∷ [])
        (Visual 5 Designated) ≡ Look true true true ∷ [] }
    ensures sensor { events_on (gear 9 Compressor (class Light Nde) (date 2020 1 15)) (entered_on (date 2024 2 1) (class Gas Plain)
        ∷ entered_on (date 2024 2 21) (class Light Nde) ∷ [])
        (Indication 9 SensorSort true) ≡ Sensor true true ∷ [] }
{}

/// The maximum calibration gas depends on the leak definition of the reading's day.
pub fn a_gas_by_the_leak_definition_of_the_day()
    ensures too_strong { events_with_gas 4001 (gear 5 Pump (class Heavy Plain) (date 2020 1 15)) (entered_on (date 2024 2 1) (class Light Plain)
        ∷ []) (Reading 5 1 1 Routine 20 0)
        ≡ Read 20 0 true false false false ∷ [] }
    ensures fit { events_with_gas 4000 (gear 5 Pump (class Heavy Plain) (date 2020 1 15)) (entered_on (date 2024 2 1) (class Light Plain)
        ∷ []) (Reading 5 1 1 Routine 20 0)
        ≡ Read 20 0 true true true false ∷ [] }
{}

/// A reading is judged by the leak definition of its own day, and so is the gas of its instrument's calibration.
pub fn readings_by_the_leak_definition_of_each_day()
    ensures leak { read_while_lowered 500 200 ≡ Read 200 0 true true true false ∷ Read 200 0 true true false true ∷ [] }
    ensures below { read_while_lowered 500 199 ≡ Read 199 0 true true true false ∷ Read 199 0 true true true false ∷ [] }
    ensures gas { read_while_lowered 2201 199 ≡ Read 199 0 true true true false ∷ Read 199 0 true false false false ∷ [] }
{}

/// Readings take the fitnesses of a list one after the other; other facts take none, and a reading after the end of the list is not
/// fit.
pub fn events_by_a_list_of_fitness()
    ensures events { map (λ e. e.what) (events_with (valve 1 (date 2020 1 15)) [] lowered three_readings (NoCalibration ∷ Fit ∷ []))
        ≡ Read 20 0 true false false false ∷ Attempt false ∷ Read 30 0 true true true false ∷ Read 40 0 true false false false ∷ [] }
    ensures fitness { filter_map (fitness_in lowered calibrated_twice) three_readings ≡ NoCalibration ∷ Fit ∷ NoPrecision ∷ [] }
{}
