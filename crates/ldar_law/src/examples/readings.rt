//! Fit readings, and readings that a drift voids.
#![tactic(auto, unfolding(ldar_days::specs::Calendar::first_day, ldar_days::specs::Calendar::month_of, ldar_days::specs::Calendar::month_length))]

ghost use Rattle.std.specs.Prelude.{◌≡◌, [], false, true, ◌∷◌};
ghost use Rattle.fact_kinds.specs.declared.body.FactBody.TheVariants.{Calibration, Drift, Precision};
ghost use Rattle.ldar_law.specs.declared.fitness.Fitness.TheVariants.{Fit, GasTooHigh, NoCalibration, NoPrecision, Voided};
ghost use Rattle.ldar_law.specs.Fitness.{fitness_of, has_drifted, is_above_drifted, is_precise};
ghost use Rattle.ldar_law.specs.Short.{busy_day, calibrated, date, drifted, drifted_to, fact, judged_at, key, precise};

/// A mean of 450 is within 10 percent of 500; the mean of 449, 450 and 450 is not (EPA Method 21, section 8.1.2).
pub fn a_precision_test_of_500_needs_a_mean_of_450()
    ensures passes { is_precise 500 1350 ≡ true }
    ensures fails { is_precise 500 1349 ≡ false }
    ensures above { is_precise 500 1650 ≡ true }
    ensures too_high { is_precise 500 1651 ≡ false }
{}

/// Without a passed precision test, no reading is fit.
pub fn a_failed_precision_test_makes_no_reading_fit()
    ensures passed { fitness_of (fact (date 2024 1 2) 0 (Precision 1 500 (450, 450, 450))
        ∷ calibrated (date 2024 2 20) 300 500 ∷ []) 500 (key (date 2024 2 20) 600) 1 20 ≡ Fit }
    ensures failed { fitness_of (fact (date 2024 1 2) 0 (Precision 1 500 (449, 450, 450))
        ∷ calibrated (date 2024 2 20) 300 500 ∷ []) 500 (key (date 2024 2 20) 600) 1 20 ≡ NoPrecision }
{}

/// A drift to 440 of 500 voids readings above 440 and below a leak definition of 500 (40 CFR 60.485a(b)(2)).
pub fn a_drift_to_440_voids_441_and_499()
    ensures counts { judged_at (drifted_to 440) 600 440 ≡ Fit }
    ensures voided { judged_at (drifted_to 440) 600 441 ≡ Voided (key (date 2024 2 20) 900) }
    ensures voided_below_the_limit { judged_at (drifted_to 440) 600 499 ≡ Voided (key (date 2024 2 20) 900) }
    ensures leak_stands { judged_at (drifted_to 440) 600 500 ≡ Fit }
{}

/// A drift to 450 of 500 is exactly 10 percent and voids nothing.
pub fn a_drift_to_450_voids_nothing()
    ensures { judged_at (drifted_to 450) 600 499 ≡ Fit }
{}

/// Three months after 30 November is the last day of February: a test of 2023-11-30 is valid through 2024-02-29.
pub fn a_precision_test_serves_for_three_months()
    ensures last { fitness_of (precise (date 2023 11 30)
        ∷ calibrated (date 2024 2 29) 300 500 ∷ []) 500 (key (date 2024 2 29) 600) 1 20 ≡ Fit }
    ensures past { fitness_of (precise (date 2023 11 30)
        ∷ calibrated (date 2024 3 1) 300 500 ∷ []) 500 (key (date 2024 3 1) 600) 1 20 ≡ NoPrecision }
{}

/// A calibration of the day before is not enough, nor is a later one of the same day.
pub fn a_reading_needs_an_earlier_calibration_of_its_day()
    ensures day_before { judged_at (calibrated (date 2024 2 19) 300 500 ∷ []) 600 20 ≡ NoCalibration }
    ensures later { judged_at (calibrated (date 2024 2 20) 700 500 ∷ []) 600 20 ≡ NoCalibration }
{}

/// Three calibrations of a day, the first with too strong a gas, and drift assessments after each.
pub fn three_calibrations_on_a_day()
    // The gas may exceed the leak definition by at most 2,000 (40 CFR 60.485a(b)(1)).
    ensures too_strong { judged_at busy_day 400 20 ≡ GasTooHigh }
    // The first drift assessment after a reading and before the next calibration voids it.
    ensures second { judged_at busy_day 600 499 ≡ Voided (key (date 2024 2 20) 650) }
    // A calibration between a reading and the drift assessments keeps the reading fit.
    ensures between { judged_at busy_day 660 499 ≡ Fit }
    // If two drift assessments follow the last calibration, the first one is reported.
    ensures third { judged_at busy_day 750 460 ≡ Voided (key (date 2024 2 20) 800) }
{}

/// A mean more than 10 percent below 500 has drifted; 449 and two thirds is just enough.
pub fn a_drift_is_more_than_ten_percent()
    ensures just { has_drifted 500 1349 ≡ true }
    ensures ten_percent { has_drifted 500 1350 ≡ false }
    ensures upwards { has_drifted 500 1700 ≡ false }
    ensures above_the_rest { is_above_drifted 500 441 1000 2640 ≡ true }
    ensures within_the_rest { is_above_drifted 500 440 1000 2640 ≡ false }
{}

/// The facts of instruments 1 and 3 do not matter for instrument 2.
pub fn facts_of_other_instruments_are_passed_over()
    ensures calibrations { fitness_of (fact (date 2024 1 2) 0 (Precision 2 500 (500, 500, 500)) ∷ fact (date 2024 2 20) 300 (Calibration 1 500)
        ∷ fact (date 2024 2 20) 301 (Calibration 3 500) ∷ []) 500 (key (date 2024 2 20) 600) 2 20 ≡ NoCalibration }
    ensures gas { fitness_of (fact (date 2024 1 2) 0 (Precision 2 500 (500, 500, 500)) ∷ fact (date 2024 2 20) 300 (Calibration 1 500)
        ∷ fact (date 2024 2 20) 301 (Calibration 3 500) ∷ fact (date 2024 2 20) 302 (Calibration 2 2501) ∷ []) 500 (key (date 2024 2 20) 600) 2 20
        ≡ GasTooHigh }
    ensures precision { fitness_of (fact (date 2024 1 2) 0 (Precision 1 500 (500, 500, 500))
        ∷ fact (date 2024 1 2) 1 (Precision 3 500 (500, 500, 500))
        ∷ fact (date 2024 2 20) 302 (Calibration 2 500) ∷ []) 500 (key (date 2024 2 20) 600) 2 20 ≡ NoPrecision }
    ensures drift { fitness_of (fact (date 2024 1 2) 0 (Precision 2 500 (500, 500, 500)) ∷ fact (date 2024 2 20) 300 (Calibration 2 500)
        ∷ fact (date 2024 2 20) 900 (Drift 1 500 (440, 440, 440)) ∷ fact (date 2024 2 20) 901 (Drift 3 500 (440, 440, 440))
        ∷ []) 500 (key (date 2024 2 20) 600) 2 499 ≡ Fit }
    ensures between { fitness_of (fact (date 2024 1 2) 0 (Precision 2 500 (500, 500, 500)) ∷ fact (date 2024 2 20) 300 (Calibration 2 500)
        ∷ fact (date 2024 2 20) 700 (Calibration 1 500) ∷ fact (date 2024 2 20) 701 (Calibration 3 500)
        ∷ fact (date 2024 2 20) 900 (Drift 2 500 (440, 440, 440)) ∷ [])
        500 (key (date 2024 2 20) 600) 2 499 ≡ Voided (key (date 2024 2 20) 900) }
{}

/// A drift assessment or a precision test is no calibration, neither before a reading nor after it.
pub fn only_calibrations_calibrate()
    ensures before { judged_at (drifted (date 2024 2 20) 300 500 ∷ []) 600 20 ≡ NoCalibration }
    ensures behind { judged_at (calibrated (date 2024 2 20) 300 500 ∷ drifted (date 2024 2 20) 700 500 ∷ drifted (date 2024 2 20) 900 440
        ∷ []) 600 499
        ≡ Voided (key (date 2024 2 20) 900) }
{}

/// A calibration of the day before is not enough, even with a suitable gas; a later precision test is not enough either; a drift of the next day voids
/// nothing.
pub fn only_facts_of_the_day_serve()
    ensures gas { judged_at (calibrated (date 2024 2 19) 300 500 ∷ calibrated (date 2024 2 20) 300 2501 ∷ []) 600 20 ≡ GasTooHigh }
    ensures precision { fitness_of (calibrated (date 2024 2 20) 300 500 ∷ precise (date 2024 2 21) ∷ []) 500 (key (date 2024 2 20) 600) 1 20
        ≡ NoPrecision }
    ensures drift { judged_at (calibrated (date 2024 2 20) 300 500 ∷ drifted (date 2024 2 21) 900 440 ∷ []) 600 499 ≡ Fit }
    ensures drift_before { judged_at (calibrated (date 2024 2 20) 300 500 ∷ drifted (date 2024 2 20) 500 440 ∷ []) 600 499 ≡ Fit }
{}
