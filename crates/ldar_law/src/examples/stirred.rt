//! Which components are touched by new facts, and how many facts are stirred.
#![tactic(auto, unfolding(ldar_days::specs::Calendar::first_day, ldar_days::specs::Calendar::month_of, ldar_days::specs::Calendar::month_length, crate::specs::Stirred::stirred))]

ghost use Rattle.std.specs.Prelude.{◌≡◌, ◌+◌, [], false, true, ◌∷◌};
ghost use Rattle.fact_kinds.specs.declared.body.FactBody.TheVariants.{Attempt as AttemptFact, Class as ClassFact, Retire as RetireFact};
ghost use Rattle.fact_kinds.specs.declared.body.FactBody.TheVariants.{Calibration, Drift, Election, Precision, Shutdown, Unit as UnitFact};
ghost use Rattle.fact_kinds.specs.declared.class.Designation.TheVariants.{Nde};
ghost use Rattle.fact_kinds.specs.declared.class.Service.TheVariants.{Gas};
ghost use Rattle.ldar_law.specs.Short.{calibrated, class, date, drifted, fact, precise};
ghost use Rattle.ldar_law.specs.ShortStirred.{adopted, enters_valve, reads_with, stirred_by, touched_by};
ghost use Rattle.ldar_law.specs.Stirred.{stirred, touched};

/// A fact touches the component that it names, but not if that is in another unit.
pub fn a_fact_touches_what_it_names()
    ensures attempt { touched_by (fact (date 2024 3 5) 600 (AttemptFact 1 false)) ≡ 1 ∷ [] }
    ensures class { touched_by (fact (date 2024 3 5) 600 (ClassFact 2 (class Gas Nde))) ≡ 2 ∷ [] }
    ensures reading { touched_by (reads_with 1 (date 2024 3 5) 2) ≡ 2 ∷ [] }
    ensures retirement { touched_by (fact (date 2024 3 5) 600 (RetireFact 1)) ≡ 1 ∷ [] }
    ensures new { touched_by (enters_valve (date 2024 3 5) 4 1) ≡ 4 ∷ [] }
    ensures of_another_unit { touched_by (fact (date 2024 3 5) 600 (AttemptFact 3 false)) ≡ [] }
    ensures shutdown { touched_by (fact (date 2024 3 5) 600 (Shutdown 1 14)) ≡ [] }
{}

/// A calibration touches the components read with its instrument on its day, earlier or later in the day.
pub fn a_calibration_touches_the_readings_of_its_day()
    ensures before { touched_by (calibrated (date 2024 2 29) 500 500) ≡ 1 ∷ [] }
    ensures after { touched_by (calibrated (date 2024 2 29) 900 500) ≡ 1 ∷ [] }
    ensures other_instrument { touched_by (fact (date 2024 3 1) 500 (Calibration 2 500)) ≡ 2 ∷ [] }
    ensures day_before { touched_by (calibrated (date 2024 2 28) 500 500) ≡ [] }
    ensures day_after { touched_by (calibrated (date 2024 3 1) 500 500) ≡ [] }
{}

/// A drift assessment touches the components read with its instrument on its day.
pub fn a_drift_touches_the_readings_of_its_day()
    ensures before { touched_by (drifted (date 2024 2 29) 500 440) ≡ 1 ∷ [] }
    ensures after { touched_by (drifted (date 2024 2 29) 900 440) ≡ 1 ∷ [] }
    ensures other_instrument { touched_by (fact (date 2024 3 1) 900 (Drift 2 500 (440, 440, 440))) ≡ 2 ∷ [] }
    ensures day_before { touched_by (drifted (date 2024 2 28) 900 440) ≡ [] }
    ensures day_after { touched_by (drifted (date 2024 3 1) 900 440) ≡ [] }
{}

/// A precision test, passed or not, touches the components read with its instrument from its day to three months later.
pub fn a_precision_test_touches_the_readings_of_three_months()
    ensures same_day { touched_by (precise (date 2024 2 29)) ≡ 1 ∷ [] }
    ensures last_day { touched_by (precise (date 2023 11 30)) ≡ 1 ∷ [] }
    ensures failed { touched_by (fact (date 2023 11 30) 0 (Precision 1 500 (1, 1, 1))) ≡ 1 ∷ [] }
    ensures other_instrument { touched_by (fact (date 2023 12 1) 0 (Precision 2 500 (500, 500, 500))) ≡ 2 ∷ [] }
    ensures past { touched_by (precise (date 2023 11 28)) ≡ [] }
    ensures day_after { touched_by (precise (date 2024 3 1)) ≡ [] }
{}

/// Without new facts, no component is touched; if all facts are new, all components that they name are touched.
pub fn only_new_facts_touch()
    ensures none { touched adopted [] 1 ≡ [] }
    ensures at_first { touched adopted adopted 1 ≡ 1 ∷ 2 ∷ [] }
{}

/// The stirred facts of a touched component are those that name it, and once those of each instrument of its readings.
pub fn facts_of_touched_components_are_stirred()
    ensures none { stirred_by [] 1 ≡ 0 }
    ensures attempt { stirred_by (fact (date 2024 3 5) 600 (AttemptFact 1 false) ∷ []) 1 ≡ 3 + 2 }
    ensures calibration { stirred_by (calibrated (date 2024 2 29) 900 500 ∷ []) 1 ≡ 2 + 3 }
    ensures second_reading { stirred_by (reads_with 1 (date 2024 4 2) 1 ∷ []) 1 ≡ 3 + 2 }
    ensures two_components { stirred_by (reads_with 1 (date 2024 3 5) 2 ∷ fact (date 2024 3 5) 600 (AttemptFact 1 false) ∷ []) 1 ≡ 3 + 3 + 2 + 1 }
    ensures other_unit { stirred_by (fact (date 2024 3 5) 600 (AttemptFact 1 false) ∷ []) 2 ≡ 0 }
{}

/// If a new fact names the unit, the facts that name the unit are stirred too; the entry of a new component counts
/// twice.
pub fn facts_of_a_named_unit_are_stirred()
    ensures shutdown { stirred_by (fact (date 2024 3 5) 600 (Shutdown 1 14) ∷ []) 1 ≡ 4 }
    ensures election { stirred_by (fact (date 2024 4 1) 600 (Election 1 1 19_700) ∷ []) 1 ≡ 4 }
    ensures unit { stirred_by (fact (date 2024 4 1) 600 (UnitFact 1 true []) ∷ []) 1 ≡ 4 }
    ensures component { stirred_by (enters_valve (date 2024 3 5) 4 1 ∷ []) 1 ≡ 1 + 4 }
    ensures class { stirred_by (fact (date 2024 3 5) 600 (ClassFact 1 (class Gas Nde)) ∷ []) 1 ≡ 3 + 2 }
    ensures other_unit { stirred_by (fact (date 2024 3 5) 600 (Shutdown 2 14) ∷ []) 1 ≡ 0 }
    ensures at_first { stirred adopted adopted 1 ≡ 2 + 2 + 2 + 1 + 3 }
{}
