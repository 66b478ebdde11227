//! Denials that depend on earlier facts or on the whole register: examples at the edges of each condition.
#![tactic(auto, unfolding(ldar_days::specs::Calendar::first_day, ldar_days::specs::Calendar::month_of, ldar_days::specs::Calendar::month_length, ldar_days::specs::Quarters::last_whole, ldar_days::specs::Quarters::first_quarter, crate::specs::Judged::register_with))]

ghost use Rattle.std.specs.Prelude.{◌≡◌, None, Some, [], codes, false, true, ◌++◌, ◌∷◌};
ghost use Rattle.fact_kinds.specs.declared.body.FactBody.TheVariants.{Attempt as AttemptFact, Class as ClassFact, Component as ComponentFact, Delay};
ghost use Rattle.fact_kinds.specs.declared.body.FactBody.TheVariants.{Election, Indication, Release, Retire, Shutdown, Unit as UnitFact, Visual};
ghost use Rattle.fact_kinds.specs.declared.body.Sort.TheVariants.{Sensor};
ghost use Rattle.fact_kinds.specs.declared.body.VisualState.TheVariants.{Drips};
ghost use Rattle.fact_kinds.specs.declared.class.Designation.TheVariants.{Difficult, Nde, Unsafe};
ghost use Rattle.fact_kinds.specs.declared.class.Kind.TheVariants.{Compressor, Pump, Relief, Valve};
ghost use Rattle.fact_kinds.specs.declared.class.Service.TheVariants.{Gas, Heavy, Light, Under300, Vacuum};
ghost use Rattle.ldar_law.specs.declared.verdict.Verdict.TheVariants.{Denied, Full, Pass};
ghost use Rattle.ldar_law.specs.Short.{class, date};
ghost use Rattle.ldar_law.specs.SmallOffice.{base, component, crude, designated, enters, in_service};
ghost use Rattle.ldar_law.specs.SmallOffice.{makes_difficult, on, one_difficult, reads, sends, valves, valves_of};
ghost use Rattle.ldar_law.specs.Verdicts.{facts_with, verdict_by, verdict_on};

/// Facts of each kind that name a component which was not entered.
pub fn unknown_component_of_each_kind()
    ensures attempt { verdict_on base (sends 1 (on (date 2024 2 20) (AttemptFact 40 false) ∷ [])) ≡ Denied 1 1 }
    ensures visual { verdict_on base (sends 1 (on (date 2024 2 20) (Visual 40 Drips) ∷ [])) ≡ Denied 1 1 }
    ensures delay { verdict_on base (sends 1 (on (date 2024 2 20) (Delay 40 2 9 (Some (date 2024 6 10))) ∷ [])) ≡ Denied 1 1 }
    ensures release { verdict_on base (sends 1 (on (date 2024 2 20) (Release 40) ∷ [])) ≡ Denied 1 1 }
    ensures indication { verdict_on base (sends 1 (on (date 2024 2 20) (Indication 40 Sensor true) ∷ [])) ≡ Denied 1 1 }
    ensures class { verdict_on base (enters 2 (on (date 2024 2 20) (ClassFact 40 (in_service Gas)) ∷ [])) ≡ Denied 1 1 }
    ensures retire { verdict_on base (enters 2 (on (date 2024 2 20) (Retire 40) ∷ [])) ≡ Denied 1 1 }
{}

/// A visual inspection of a pump in vacuum service.
pub fn visual_inspection_in_vacuum_service()
    ensures { verdict_on (base ++ enters 2 (on (date 2024 1 1) (ClassFact 5 (in_service Vacuum)) ∷ [])
        ∷ []) (sends 1 (on (date 2024 2 20) (Visual 5 Drips) ∷ []))
        ≡ Denied 1 2 }
{}

/// A reading is judged by the classes of facts before it in its batch, not of facts after it.
pub fn class_before_and_after_a_reading()
    ensures after { verdict_on base (enters 2 (on (date 2024 2 20) (reads 1 20) ∷ on (date 2024 2 20) (ClassFact 1 (in_service Vacuum)) ∷ []))
        ≡ Pass }
    ensures before { verdict_on base (enters 2 (on (date 2024 2 20) (ClassFact 1 (in_service Vacuum)) ∷ on (date 2024 2 20) (reads 1 20) ∷ []))
        ≡ Denied 2 2 }
{}

/// A sensor's indication at a pump, although the sensor is silent.
pub fn sensor_that_is_silent()
    ensures { verdict_on base (sends 1 (on (date 2024 2 20) (Indication 5 Sensor false) ∷ [])) ≡ Denied 1 6 }
{}

/// A pressure release of a relief device in light liquid service.
pub fn pressure_release_in_liquid_service()
    ensures { verdict_on (base ++ enters 2 (on (date 2024 1 1) (component 10 Relief false Light) ∷ [])
        ∷ []) (sends 1 (on (date 2024 2 20) (Release 10) ∷ []))
        ≡ Denied 1 7 }
{}

/// A delay until a shutdown needs an expected day.
pub fn delay_until_a_shutdown_without_a_day()
    ensures { verdict_on base (sends 1 (on (date 2024 2 20) (Delay 1 1 9 None) ∷ [])) ≡ Denied 1 13 }
{}

/// Mode 3 needs its notice as mode 1 does.
pub fn notice_of_mode_3()
    ensures { verdict_on base (enters 2 (on (date 2024 7 1) (Election 1 3 (date 2024 4 3)) ∷ [])) ≡ Denied 1 14 }
{}

/// Elections within a quarter: on the first day of its second month, and one that leaves the program.
pub fn elections_within_a_quarter()
    ensures second_month { verdict_on base (enters 2 (on (date 2024 8 1) (Election 1 1 (date 2024 4 1)) ∷ [])) ≡ Denied 1 20 }
    ensures given_up { verdict_on base (enters 2 (on (date 2024 7 2) (Election 1 0 (date 2024 7 2)) ∷ [])) ≡ Denied 1 20 }
{}

/// An older unit may have any share of difficult valves (40 CFR 60.482-7a(h)(2)(ii)).
pub fn difficult_valves_of_an_older_unit()
    ensures { verdict_on (enters 1 (on (date 2020 1 15) (UnitFact 1 true (codes "CRUDE")) ∷ valves 2) ∷ []) (enters 2 (makes_difficult 1 ∷ []))
        ≡ Pass }
{}

/// A valve that is entered as a difficult one counts like one that is made difficult, even if its unit is entered later in the
/// batch.
pub fn valve_entered_as_difficult()
    ensures alone { verdict_on base (enters 2 (on (date 2024 1 1) (ComponentFact 10 1 Valve false false (designated Difficult)) ∷ [])) ≡ Denied 1 15 }
    ensures before_its_unit { verdict_on [] (enters 1 (on (date 2020 1 15) (ComponentFact 1 1 Valve false false (designated Difficult))
        ∷ on (date 2020 1 15) crude ∷ []))
        ≡ Denied 1 15 }
{}

/// The share is of valves in service on the fact's day, by their class on that day.
pub fn which_valves_make_the_share()
    ensures no_pump { verdict_on (enters 1 (on (date 2020 1 15) crude ∷ valves 33 ++ on (date 2020 1 15) (component 200 Pump false Light) ∷ [])
        ∷ []) (enters 2 (makes_difficult 1 ∷ []))
        ≡ Denied 1 15 }
    ensures none_retired { verdict_on (enters 1 (on (date 2020 1 15) crude ∷ valves 34 ++ on (date 2023 1 1) (Retire 34) ∷ [])
        ∷ []) (enters 2 (makes_difficult 1 ∷ []))
        ≡ Denied 1 15 }
    ensures none_difficult_later { verdict_on (enters 1 (on (date 2020 1 15) crude ∷ valves 100)
        ∷ enters 2 (on (date 2024 6 1) (ClassFact 1 (designated Difficult)) ∷ on (date 2024 6 1) (ClassFact 2 (designated Difficult)) ∷ [])
        ∷ []) (enters 3 (makes_difficult 3 ∷ []))
        ≡ Pass }
{}

/// A component and an election of a unit that was not entered: our own rule.
pub fn unknown_unit_of_each_kind()
    ensures component { verdict_on [] (enters 1 (on (date 2020 1 15) (component 1 Valve false Gas) ∷ [])) ≡ Denied 1 17 }
    ensures election { verdict_on [] (enters 1 (on (date 2024 7 1) (Election 1 1 (date 2024 4 1)) ∷ [])) ≡ Denied 1 17 }
{}

/// A compressor in light liquid service: our own rule, after the one on handhelds.
pub fn compressor_in_liquid_service()
    ensures of_the_office { verdict_on base (enters 2 (on (date 2024 1 1) (component 20 Compressor false Light) ∷ [])) ≡ Denied 1 21 }
    ensures of_a_handheld { verdict_on base (sends 1 (on (date 2024 1 1) (component 20 Compressor false Light) ∷ [])) ≡ Denied 1 16 }
{}

/// Designations that pumps do not have: difficult to monitor, and no detectable emissions in heavy liquid service.
pub fn designations_that_suit_no_pump()
    ensures difficult { verdict_on base (enters 2 (on (date 2024 1 1) (ComponentFact 20 1 Pump false false (class Light Difficult)) ∷ []))
        ≡ Denied 1 21 }
    ensures heavy_liquid { verdict_on base (enters 2 (on (date 2024 1 1) (ComponentFact 20 1 Pump false false (class Heavy Nde)) ∷ []))
        ≡ Denied 1 21 }
{}

/// The facts of the batch are included in the total.
pub fn facts_of_the_batch_count()
    ensures { facts_with base (sends 1 (on (date 2024 2 20) (reads 1 20) ∷ [])) ≡ 12 }
{}

/// Facts other than readings and inspections are not denied for their service.
pub fn attempt_in_vacuum_service()
    ensures vacuum { verdict_on (base ++ enters 2 (on (date 2024 1 1) (ClassFact 1 (in_service Vacuum)) ∷ [])
        ∷ []) (sends 1 (on (date 2024 2 20) (AttemptFact 1 false) ∷ [])) ≡ Pass }
    ensures under_300_hours { verdict_on (base ++ enters 2 (on (date 2024 1 1) (ClassFact 1 (in_service Under300)) ∷ [])
        ∷ []) (sends 1 (on (date 2024 2 20) (AttemptFact 1 false) ∷ []))
        ≡ Pass }
{}

/// Grounds (c) and (e) are for valves.
pub fn grounds_of_valves()
    ensures purge { verdict_on base (sends 1 (on (date 2024 2 20) (Delay 1 3 9 (Some (date 2024 6 10))) ∷ [])) ≡ Pass }
    ensures stock { verdict_on base (sends 1 (on (date 2024 2 20) (Delay 1 5 9 (Some (date 2024 6 10))) ∷ [])) ≡ Pass }
{}

/// Other designations suit pumps and compressors; a compressor has no heavy liquid service either.
pub fn designations_that_suit()
    ensures pump { verdict_on base (enters 2 (on (date 2024 1 1) (ComponentFact 20 1 Pump false false (class Light Nde)) ∷ [])) ≡ Pass }
    ensures unsafe_pump { verdict_on base (enters 2 (on (date 2024 1 1) (ComponentFact 20 1 Pump false false (class Light Unsafe)) ∷ [])) ≡ Pass }
    ensures compressor { verdict_on base (enters 2 (on (date 2024 1 1) (ComponentFact 20 1 Compressor false false (class Gas Nde)) ∷ [])) ≡ Pass }
    ensures unsafe_compressor { verdict_on base (enters 2 (on (date 2024 1 1) (ComponentFact 20 1 Compressor false false (class Gas Unsafe)) ∷ []))
        ≡ Denied 1 21 }
    ensures heavy_liquid { verdict_on base (enters 2 (on (date 2024 1 1) (component 20 Compressor false Heavy) ∷ [])) ≡ Denied 1 21 }
{}

/// Two of 67 valves may be difficult; valves that begin later, are in another unit, or are entered twice, make no difference.
pub fn which_valves_count_among_all()
    ensures two_of_67 { verdict_on (enters 1 (on (date 2020 1 15) crude ∷ valves 67) ∷ enters 2 (makes_difficult 2 ∷ [])
        ∷ []) (enters 3 (makes_difficult 1 ∷ [])) ≡ Pass }
    ensures not_yet { verdict_on (enters 1 (on (date 2020 1 15) crude ∷ valves 33 ++ on (date 2024 6 1) (component 300 Valve false Gas) ∷ [])
        ∷ []) (enters 2 (makes_difficult 1 ∷ [])) ≡ Denied 1 15 }
    ensures next_unit { verdict_on (enters 1 (on (date 2020 1 15) crude ∷ valves 34 ++ on (date 2020 1 15) (UnitFact 2 true (codes "COKER"))
        ∷ on (date 2020 1 15) (ComponentFact 300 2 Valve false false (designated Difficult)) ∷ []) ∷ []) (enters 2 (makes_difficult 1 ∷ [])) ≡ Pass }
    ensures unit_before { verdict_on (enters 1 (on (date 2020 1 15) (UnitFact 1 true (codes "CRUDE"))
        ∷ on (date 2020 1 15) (UnitFact 2 false (codes "COKER")) ∷ valves_of 2 34
        ++ on (date 2020 1 15) (ComponentFact 300 1 Valve false false (designated Difficult)) ∷ []) ∷ []) (enters 2 (makes_difficult 1 ∷ [])) ≡ Pass }
    ensures entered_twice { verdict_on (enters 1 (on (date 2020 1 15) crude ∷ valves 33) ∷ []) (enters 2 (makes_difficult 1
        ∷ on (date 2024 1 1) (component 5 Valve false Gas) ∷ [])) ≡ Denied 1 15 }
{}

/// If the share is reached, only facts that add to it are denied for it.
pub fn what_adds_to_a_reached_share()
    ensures plain_valve { verdict_on one_difficult (enters 3 (on (date 2024 2 1) (component 10 Valve false Gas) ∷ [])) ≡ Pass }
    ensures plain_class { verdict_on one_difficult (enters 3 (on (date 2024 2 1) (ClassFact 2 (in_service Light)) ∷ [])) ≡ Pass }
    ensures pump { verdict_on one_difficult (enters 3 (on (date 2024 2 1) (ComponentFact 10 1 Pump false false (class Light Difficult)) ∷ []))
        ≡ Denied 1 21 }
    ensures class_of_a_pump { verdict_on one_difficult (enters 3 (on (date 2024 2 1) (ClassFact 5 (class Light Difficult)) ∷ [])) ≡ Denied 1 21 }
    ensures unknown_unit { verdict_on one_difficult (enters 3 (on (date 2024 2 1) (ComponentFact 10 3 Valve false false (designated Difficult))
        ∷ [])) ≡ Denied 1 17 }
    ensures third_of_the_batch { verdict_on (enters 1 (on (date 2020 1 15) crude ∷ valves 33)
        ∷ []) (enters 2 (on (date 2020 1 15) (component 40 Valve false Gas)
        ∷ makes_difficult 1 ∷ on (date 2020 1 15) (component 41 Pump false Light) ∷ [])) ≡ Pass }
{}

/// Each kind of entry in the register is for the office only, and is denied for handheld 1 too.
pub fn register_facts_of_handhelds()
    ensures election { verdict_on base (sends 1 (on (date 2024 7 1) (Election 1 1 (date 2024 4 1)) ∷ [])) ≡ Denied 1 16 }
    ensures shutdown { verdict_on base (sends 1 (on (date 2024 6 1) (Shutdown 1 14) ∷ [])) ≡ Denied 1 16 }
    ensures unit { verdict_on base (sends 1 (on (date 2024 6 1) (UnitFact 2 false (codes "COKER")) ∷ [])) ≡ Denied 1 16 }
    ensures class { verdict_on base (sends 1 (on (date 2024 6 1) (ClassFact 1 (in_service Light)) ∷ [])) ≡ Denied 1 16 }
    ensures handheld_1 { verdict_on base (record { handheld = 1; number = 2; facts = on (date 2024 2 20) (Retire 1) ∷ [] }) ≡ Denied 1 16 }
{}

/// An election in a month before the unit's first quarter does not begin a quarter.
pub fn election_before_the_first_quarter()
    ensures { verdict_on base (enters 2 (on (date 2020 2 1) (Election 1 0 (date 2020 2 1)) ∷ [])) ≡ Denied 1 20 }
{}

/// 8,000,000 facts fit, and one more is too much.
pub fn facts_that_fit()
    ensures fit { verdict_by None 8_000_000 ≡ Pass }
    ensures full { verdict_by None 8_000_001 ≡ Full 8_000_001 }
    ensures denied_first { verdict_by (Some (1, 7)) 8_000_001 ≡ Denied 1 7 }
{}

/// A component is what its first entry says: one in the history, before the batch, or one earlier in the batch.
pub fn components_that_are_entered_again()
    ensures history_first { verdict_on base (enters 2 (makes_difficult 1 ∷ on (date 2024 1 1) (component 1 Pump false Light) ∷ [])) ≡ Denied 1 15 }
    ensures batch_in_order { verdict_on base (enters 2 (on (date 2020 1 15) (component 40 Valve false Gas) ∷ makes_difficult 40
        ∷ on (date 2024 1 1) (component 40 Pump false Light) ∷ []))
        ≡ Denied 2 15 }
{}
