//! Worked examples of denials: the contracts of empty functions, each clause proved by computing.
#![tactic(auto, unfolding(ldar_days::specs::Calendar::first_day, ldar_days::specs::Calendar::month_of, ldar_days::specs::Calendar::month_length, ldar_days::specs::Quarters::first_quarter, ldar_days::specs::Quarters::last_whole, crate::specs::Judged::register_with))]

ghost use Rattle.std.specs.Prelude.{◌≡◌, ℕ, true, false, Some, None, [], ◌∷◌, ◌++◌, codes};
ghost use Rattle.fact_kinds.specs.declared.batch.Batch.{Batch};
ghost use Rattle.fact_kinds.specs.declared.class.Kind.TheVariants.{Valve, Pump};
ghost use Rattle.fact_kinds.specs.declared.class.Service.TheVariants.{Gas, Light, Heavy, Vacuum, Under300};
ghost use Rattle.fact_kinds.specs.declared.class.Designation.TheVariants.{Nde, Difficult};
ghost use Rattle.fact_kinds.specs.declared.body.Purpose.TheVariants.{Routine};
ghost use Rattle.fact_kinds.specs.declared.body.VisualState.TheVariants.{Drips};
ghost use Rattle.fact_kinds.specs.declared.body.Sort.TheVariants.{Sensor, Evidence};
ghost use Rattle.fact_kinds.specs.declared.body.FactBody.TheVariants.{Component as ComponentFact, Class as ClassFact, Retire};
ghost use Rattle.fact_kinds.specs.declared.body.FactBody.TheVariants.{Election, Shutdown, Reading, Visual, Delay, Release, Indication};
ghost use Rattle.ldar_law.specs.declared.verdict.Verdict.TheVariants.{Pass, Denied};
ghost use Rattle.ldar_law.specs.Short.{date};
ghost use Rattle.ldar_law.specs.SmallOffice.{on, enters, sends, in_service, designated, component, crude};
ghost use Rattle.ldar_law.specs.SmallOffice.{register, base, reads, hundred_valves, makes_difficult};
ghost use Rattle.ldar_law.specs.Verdicts.{verdict_on, is_ruly, first_unruly, paragraph_of};

/// A reading of a component that was not entered (40 CFR 60.486a(e)(1)).
pub fn unknown_component()
    ensures denied { verdict_on base (sends 1 (on (date 2024 2 20) (reads 10 20) ∷ [])) ≡ Denied 1 1 }
    ensures known { verdict_on base (sends 1 (on (date 2024 2 20) (reads 4 20) ∷ [])) ≡ Pass }
{}

/// A reading in vacuum service, by the class in force on its day (40 CFR 60.482-1a(d)).
pub fn vacuum_service()
    ensures denied { verdict_on (base ++ enters 2 (on (date 2024 1 1) (ClassFact 1 (in_service Vacuum)) ∷ []) ∷ [])
        (sends 1 (on (date 2024 1 1) (reads 1 20) ∷ [])) ≡ Denied 1 2 }
    ensures day_before { verdict_on (base ++ enters 2 (on (date 2024 1 1) (ClassFact 1 (in_service Vacuum)) ∷ []) ∷ [])
        (sends 1 (on (date 2023 12 31) (reads 1 20) ∷ [])) ≡ Pass }
{}

/// A reading in VOC service less than 300 hours a year (40 CFR 60.482-1a(e)).
pub fn under_300_hours()
    ensures denied { verdict_on (base ++ enters 2 (on (date 2024 1 1) (ClassFact 1 (in_service Under300)) ∷ []) ∷ [])
        (sends 1 (on (date 2024 2 20) (reads 1 20) ∷ [])) ≡ Denied 1 3 }
{}

/// A reading without an instrument, or without an operator (40 CFR 60.486a(a)(3)).
pub fn unsigned_reading()
    ensures no_instrument { verdict_on base (sends 1 (on (date 2024 2 20) (Reading 1 0 1 Routine 20 0) ∷ [])) ≡ Denied 1 4 }
    ensures no_operator { verdict_on base (sends 1 (on (date 2024 2 20) (Reading 1 1 0 Routine 20 0) ∷ [])) ≡ Denied 1 4 }
{}

/// A visual inspection of a component that is not a pump in light liquid service (40 CFR 60.482-2a(a)(2)).
pub fn visual_inspection()
    ensures valve { verdict_on base (sends 1 (on (date 2024 2 20) (Visual 1 Drips) ∷ [])) ≡ Denied 1 5 }
    ensures heavy_liquid { verdict_on base (sends 1 (on (date 2024 2 20) (Visual 7 Drips) ∷ [])) ≡ Denied 1 5 }
    ensures light_liquid { verdict_on base (sends 1 (on (date 2024 2 20) (Visual 5 Drips) ∷ [])) ≡ Pass }
{}

/// A sensor's indication at a component that is not a compressor in gas service (40 CFR 60.482-3a(f)).
pub fn sensor()
    ensures pump { verdict_on base (sends 1 (on (date 2024 2 20) (Indication 5 Sensor true) ∷ [])) ≡ Denied 1 6 }
    ensures compressor { verdict_on base (sends 1 (on (date 2024 2 20) (Indication 9 Sensor true) ∷ [])) ≡ Pass }
{}

/// A pressure release of a component that is not a relief device in gas service (40 CFR 60.482-4a(b)).
pub fn pressure_release()
    ensures valve { verdict_on base (sends 1 (on (date 2024 2 20) (Release 1) ∷ [])) ≡ Denied 1 7 }
    ensures relief_device { verdict_on base (sends 1 (on (date 2024 2 20) (Release 8) ∷ [])) ≡ Pass }
{}

/// Evidence of a leak at a component that is not in heavy liquid service (40 CFR 60.482-8a(a)).
pub fn evidence()
    ensures gas { verdict_on base (sends 1 (on (date 2024 2 20) (Indication 1 Evidence true) ∷ [])) ≡ Denied 1 8 }
    ensures heavy_liquid { verdict_on base (sends 1 (on (date 2024 2 20) (Indication 7 Evidence true) ∷ [])) ≡ Pass }
{}

/// Delays on a ground for other components (40 CFR 60.482-9a(c), (d) and (e)).
pub fn ground_of_another()
    ensures purge_of_a_pump { verdict_on base (sends 1 (on (date 2024 2 20) (Delay 5 3 9 (Some (date 2024 6 10))) ∷ [])) ≡ Denied 1 9 }
    ensures seal_of_a_valve { verdict_on base (sends 1 (on (date 2024 2 20) (Delay 1 4 9 (Some (date 2024 6 10))) ∷ [])) ≡ Denied 1 10 }
    ensures stock_for_a_pump { verdict_on base (sends 1 (on (date 2024 2 20) (Delay 5 5 9 (Some (date 2024 6 10))) ∷ [])) ≡ Denied 1 11 }
    ensures seal_of_a_pump { verdict_on base (sends 1 (on (date 2024 2 20) (Delay 5 4 9 (Some (date 2024 6 10))) ∷ [])) ≡ Pass }
{}

/// A delay until a shutdown without a signature (40 CFR 60.486a(c)(6)), and a delay without an expected day of repair
/// (40 CFR 60.486a(c)(7)). A withdrawal needs no expected day.
pub fn incomplete_delay()
    ensures unsigned { verdict_on base (sends 1 (on (date 2024 2 20) (Delay 1 1 0 (Some (date 2024 6 10))) ∷ [])) ≡ Denied 1 12 }
    ensures signed { verdict_on base (sends 1 (on (date 2024 2 20) (Delay 1 1 9 (Some (date 2024 6 10))) ∷ [])) ≡ Pass }
    ensures not_expected { verdict_on base (sends 1 (on (date 2024 2 20) (Delay 1 2 0 None) ∷ [])) ≡ Denied 1 13 }
    ensures withdrawn { verdict_on base (sends 1 (on (date 2024 2 20) (Delay 1 0 0 None) ∷ [])) ≡ Pass }
{}

/// Skip periods from 2024-07-01 on, elected with a notice of 90 days, or of 89 (40 CFR 60.487a(d)). Leaving the program
/// needs no notice.
pub fn notice()
    ensures of_90_days { verdict_on base (enters 2 (on (date 2024 7 1) (Election 1 1 (date 2024 4 2)) ∷ [])) ≡ Pass }
    ensures of_89_days { verdict_on base (enters 2 (on (date 2024 7 1) (Election 1 1 (date 2024 4 3)) ∷ [])) ≡ Denied 1 14 }
    ensures given_up { verdict_on base (enters 2 (on (date 2024 7 1) (Election 1 0 (date 2024 7 1)) ∷ [])) ≡ Pass }
{}

/// Two of 100 valves may be difficult to monitor, but not three (40 CFR 60.482-7a(h)(2)(ii)). Within one batch, the
/// third one counts even when the first is judged.
pub fn third_difficult_valve()
    ensures second { verdict_on (hundred_valves ∷ enters 2 (makes_difficult 1 ∷ []) ∷ []) (enters 3 (makes_difficult 2 ∷ [])) ≡ Pass }
    ensures third { verdict_on (hundred_valves ∷ enters 2 (makes_difficult 1 ∷ makes_difficult 2 ∷ []) ∷ [])
        (enters 3 (makes_difficult 3 ∷ [])) ≡ Denied 1 15 }
    ensures together { verdict_on (hundred_valves ∷ [])
        (enters 2 (makes_difficult 1 ∷ makes_difficult 2 ∷ makes_difficult 3 ∷ [])) ≡ Denied 1 15 }
{}

/// A valve that is made difficult on a day on which no valve of the unit is in service: none is 3 percent of none.
pub fn difficult_before_all()
    ensures { verdict_on base (enters 2 (on (date 2020 1 14) (ClassFact 1 (designated Difficult)) ∷ [])) ≡ Denied 1 15 }
{}

/// A handheld other than the office's own makes an entry in the register: our own rule.
pub fn register_fact_of_a_handheld()
    ensures denied { verdict_on base (sends 1 (on (date 2024 2 20) (Retire 1) ∷ [])) ≡ Denied 1 16 }
    ensures entered { verdict_on base (enters 2 (on (date 2024 2 20) (Retire 1) ∷ [])) ≡ Pass }
{}

/// A shutdown of a unit that was not entered: our own rule. The unit may be entered earlier in the batch.
pub fn unknown_unit()
    ensures denied { verdict_on [] (enters 1 (on (date 2024 6 1) (Shutdown 1 14) ∷ on (date 2020 1 15) crude ∷ [])) ≡ Denied 1 17 }
    ensures known { verdict_on [] (enters 1 (on (date 2020 1 15) crude ∷ on (date 2024 6 1) (Shutdown 1 14) ∷ [])) ≡ Pass }
{}

/// A unit or a component that is entered again: our own rule.
pub fn second_entry()
    ensures unit { verdict_on base (enters 2 (on (date 2021 1 1) crude ∷ [])) ≡ Denied 1 18 }
    ensures component { verdict_on base (enters 2 (on (date 2021 1 1) (component 10 Valve false Gas)
        ∷ on (date 2021 1 1) (component 10 Pump false Light) ∷ [])) ≡ Denied 2 18 }
{}

/// A fact of a day after 2097-12-31: our own rule.
pub fn late_day()
    ensures after { verdict_on base (sends 1 (on (date 2098 1 1) (reads 1 20) ∷ [])) ≡ Denied 1 19 }
    ensures last_day { verdict_on base (sends 1 (on (date 2097 12 31) (reads 1 20) ∷ [])) ≡ Pass }
{}

/// An election that does not begin with a quarter, notified in time: our own rule.
pub fn second_day_of_a_quarter()
    ensures { verdict_on base (enters 2 (on (date 2024 7 2) (Election 1 1 (date 2024 4 1)) ∷ [])) ≡ Denied 1 20 }
{}

/// Classes that do not suit the kind of component: our own rule.
pub fn unsuited_class()
    ensures service { verdict_on base (enters 2 (on (date 2024 1 1) (component 10 Pump false Gas) ∷ [])) ≡ Denied 1 21 }
    ensures designation { verdict_on base (enters 2 (on (date 2024 1 1) (ClassFact 8 (designated Nde)) ∷ [])) ≡ Denied 1 21 }
    ensures heavy_liquid { verdict_on base (enters 2 (on (date 2024 1 1) (component 10 Pump false Heavy) ∷ [])) ≡ Pass }
{}

/// A batch is denied for its first denied fact, by the least of that fact's rules.
pub fn first_fact_and_least_rule()
    ensures { verdict_on base (sends 1 (on (date 2024 2 20) (reads 1 20) ∷ on (date 2098 1 1) (Reading 10 0 0 Routine 20 0)
        ∷ on (date 2024 2 20) (Release 1) ∷ [])) ≡ Denied 2 1 }
{}

/// A history whose batches each pass after those before them, and one whose third batch is denied.
pub fn ruly_history()
    ensures ruly { is_ruly base ≡ true }
    ensures unruly { is_ruly (base ++ sends 1 (on (date 2024 2 20) (Release 1) ∷ []) ∷ []) ≡ false }
    ensures first { first_unruly (base ++ sends 1 (on (date 2024 2 20) (Release 1) ∷ []) ∷ []) ≡ Some (3, 7) }
{}
