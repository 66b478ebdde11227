//! The duties of a period: examples at the edges of each condition.
#![tactic(auto, unfolding(ldar_days::specs::Calendar::first_day, ldar_days::specs::Calendar::month_of, ldar_days::specs::Calendar::month_length, ldar_days::specs::Quarters::last_whole, ldar_days::specs::Quarters::first_quarter, list_words::specs::Ranges::until, crate::specs::Months::is_clean, crate::specs::Months::has_leak_in, crate::specs::Months::is_quarterly, crate::specs::Duties::duties_of, crate::specs::Duties::first_monitoring, crate::specs::Duties::monthly, crate::specs::Duties::quarterly, crate::specs::Duties::yearly, crate::specs::Duties::planned, crate::specs::Duties::weekly, crate::specs::Duties::drip, crate::specs::Duties::release, crate::specs::Duties::evidence))]

ghost use Rattle.std.specs.Prelude.{◌≡◌, [], map, true, ◌∷◌};
ghost use Rattle.fact_kinds.specs.declared.class.Designation.TheVariants.{Difficult, Nde, Plain};
ghost use Rattle.fact_kinds.specs.declared.class.Kind.TheVariants.{Compressor, Pump, Relief, Valve};
ghost use Rattle.fact_kinds.specs.declared.class.Service.TheVariants.{Gas, Light};
ghost use Rattle.ldar_law.specs.Duties.{duties_of};
ghost use Rattle.ldar_law.specs.Months.{is_quarterly, month_in_quarter};
ghost use Rattle.ldar_law.specs.Short.{class, date, entered_on, gear, key, month, planned_difficult, pump};
ghost use Rattle.ldar_law.specs.Short.{relief, retired_gear, retired_valve, second_months, unsafe_by, valve};
ghost use Rattle.ldar_law.specs.ShortEvents.{designates, dry, follows_up, reads, reads_by, reads_in_vain, releases};
ghost use Rattle.ldar_law.specs.ShortLists.{duties_on, duties_with, has_done, of_cause, owes};

/// A first monitoring is judged on its due day; a valve that is retired later has missed it.
pub fn a_valve_retired_after_its_first_due_day_has_missed_it()
    ensures { duties_on (date 2024 2 20) (retired_valve 30 (date 2024 1 10) (date 2024 2 15)) [] ≡ owes 30 1 (date 2024 2 9) ∷ [] }
{}

/// A valve that goes out of service in a month is not monitored in that month.
pub fn a_month_is_judged_on_its_last_day()
    ensures { of_cause 2 (duties_on (date 2024 2 20) (retired_valve 30 (date 2024 1 10) (date 2024 2 15)) []) ≡ [] }
{}

/// A pump with no detectable emissions is not monitored each month.
pub fn a_designated_pump_is_not_monthly()
    ensures { of_cause 2 (duties_on (date 2024 1 30) (gear 5 Pump (class Light Nde) (date 2023 12 15)) []) ≡ [] }
{}

/// A valve that is difficult to monitor has no quarterly monitoring, even if it becomes so within the month.
pub fn a_difficult_valve_is_not_quarterly()
    ensures entered { of_cause 3 (duties_on (date 2024 7 5) (gear 30 Valve (class Gas Difficult) (date 2023 12 10)) (reads (date 2024 3 12) 10
        ∷ reads (date 2024 4 12) 10 ∷ [])) ≡ [] }
    ensures in_the_month { of_cause 3 (duties_of (valve 1 (date 2020 1 15)) ((key (date 2024 7 15) 0, class Gas Difficult)
        ∷ []) (date 2020 1 15) (reads (date 2024 3 12) 10
        ∷ reads (date 2024 4 12) 10 ∷ []) [] (date 2024 7 31)) ≡ [] }
{}

/// The month of the quarter is set by the class in force; here it is the second.
pub fn a_class_moves_the_month_of_a_quarter()
    ensures july { of_cause 3 (duties_of (valve 1 (date 2020 1 15)) (second_months ∷ []) (date 2020 1 15) (reads (date 2024 3 12) 10
        ∷ reads (date 2024 4 12) 10 ∷ []) [] (date 2024 7 31)) ≡ [] }
    ensures august { of_cause 3 (duties_of (valve 1 (date 2020 1 15)) (second_months ∷ []) (date 2020 1 15) (reads (date 2024 3 12) 10
        ∷ reads (date 2024 4 12) 10 ∷ []) [] (date 2024 9 30)) ≡ owes 1 3 (date 2024 8 31) ∷ [] }
{}

/// Valves and pumps with no detectable emissions are monitored yearly, as compressors are (40 CFR 60.482-2a(e),
/// 60.482-7a(f)).
pub fn pumps_and_valves_with_no_detectable_emissions_are_yearly()
    ensures pump { of_cause 4 (duties_on (date 2024 6 1) (gear 5 Pump (class Light Nde) (date 2023 12 10)) []) ≡ owes 5 4 (date 2024 12 31) ∷ [] }
    ensures valve { of_cause 4 (duties_on (date 2024 6 1) (gear 1 Valve (class Gas Nde) (date 2023 12 10)) []) ≡ owes 1 4 (date 2024 12 31) ∷ [] }
{}

/// A follow-up reading does not meet the yearly duty.
pub fn a_year_wants_a_routine_reading()
    ensures { of_cause 4 (duties_on (date 2024 6 1) (gear 9 Compressor (class Gas Nde) (date 2023 12 10)) (follows_up (date 2024 5 1) 20 0 ∷ []))
        ≡ owes 9 4 (date 2024 12 31) ∷ [] }
{}

/// A valve that is no longer difficult on the view day owes nothing for the year.
pub fn a_year_is_judged_by_the_class_of_the_view_day()
    ensures { of_cause 4 (duties_of (gear 30 Valve (class Gas Difficult) (date 2023 12 10)) ((key (date 2024 6 1) 0, class Gas Plain)
        ∷ []) (date 2020 1 15) [] [] (date 2024 7 1)) ≡ [] }
{}

/// The first year is the one of the thirtieth day after the component begins (our own rule).
pub fn the_first_year_is_that_of_the_thirtieth_day()
    ensures in_the_year { of_cause 4 (duties_on (date 2023 12 31) (gear 30 Valve (class Gas Difficult) (date 2023 12 1)) [])
        ≡ owes 30 4 (date 2023 12 31) ∷ [] }
    ensures next_year { of_cause 4 (duties_on (date 2023 12 31) (gear 30 Valve (class Gas Difficult) (date 2023 12 2)) []) ≡ [] }
{}

/// A retired component owes nothing for the year, the window, the week or the month.
pub fn what_is_retired_owes_nothing()
    ensures yearly { of_cause 4 (duties_on (date 2024 6 1) (retired_gear 30 Valve (class Gas Difficult) (date 2023 12 10) (date 2024 5 1)) []) ≡ [] }
    ensures plan { of_cause 5 (duties_on (date 2024 3 1) (retired_gear 30 Valve (unsafe_by Gas 5) (date 2024 1 15) (date 2024 2 20)) []) ≡ [] }
    ensures week { of_cause 6 (duties_on (date 2024 1 28) (retired_gear 5 Pump (class Light Plain) (date 2024 1 15) (date 2024 1 25)) []) ≡ [] }
    ensures quarter { of_cause 3 (duties_on (date 2024 7 31) (retired_gear 1 Valve (class Gas Plain) (date 2020 1 15) (date 2024 7 10))
        (reads (date 2024 3 12) 10
        ∷ reads (date 2024 4 12) 10 ∷ [])) ≡ [] }
{}

/// Windows of sixty months, one that would end after 2099-12-31, and windows of a pump (40 CFR 60.482-2a(g)(2)).
pub fn windows_of_long_plans_and_of_pumps()
    ensures sixty { duties_on (date 2024 3 1) (gear 30 Valve (unsafe_by Gas 60) (date 2024 1 15)) [] ≡ owes 30 5 (date 2029 1 31) ∷ [] }
    ensures past { duties_on (date 2097 12 31) (gear 30 Valve (unsafe_by Gas 60) (date 2097 11 15)) [] ≡ owes 30 5 (date 2099 12 31) ∷ [] }
    ensures pump { duties_on (date 2024 3 1) (gear 5 Pump (unsafe_by Light 5) (date 2024 1 15)) [] ≡ owes 5 5 (date 2024 6 30) ∷ [] }
{}

/// The plan is set by the class in force.
pub fn a_class_sets_the_plan()
    ensures { of_cause 5 (duties_of (gear 30 Valve (class Gas Plain) (date 2024 1 15)) ((key (date 2024 2 1) 0, unsafe_by Gas 5)
        ∷ []) (date 2020 1 15) [] [] (date 2024 3 1))
        ≡ owes 30 5 (date 2024 6 30) ∷ [] }
{}

/// A pump with no detectable emissions has no weekly inspection, even if it is designated within the week.
pub fn a_designated_pump_is_not_looked_at()
    ensures entered { of_cause 6 (duties_on (date 2024 1 30) (gear 5 Pump (class Light Nde) (date 2024 1 15)) []) ≡ [] }
    ensures in_the_week { of_cause 6 (duties_of (pump 5 (date 2024 1 22)) ((key (date 2024 1 31) 0, class Light Nde)
        ∷ []) (date 2020 1 15) [] [] (date 2024 2 4)) ≡ [] }
{}

/// Pumps have a first monitoring, as valves do; relief devices have none.
pub fn which_kinds_have_a_first_monitoring()
    ensures pump { of_cause 1 (duties_on (date 2024 1 20) (pump 5 (date 2024 1 10)) []) ≡ owes 5 1 (date 2024 2 9) ∷ [] }
    ensures relief_device { of_cause 1 (duties_on (date 2024 1 20) (relief 8 (date 2024 1 10)) []) ≡ [] }
{}

/// The first counting routine reading within a period meets it.
pub fn which_readings_meet_a_period()
    ensures first { of_cause 2 (duties_on (date 2024 2 20) (valve 30 (date 2024 1 10)) (reads (date 2024 2 12) 10 ∷ reads (date 2024 2 15) 10 ∷ []))
        ≡ has_done 30 2 (date 2024 2 29) (date 2024 2 12) ∷ [] }
    ensures follow_up { of_cause 2 (duties_on (date 2024 2 20) (valve 30 (date 2024 1 10)) (follows_up (date 2024 2 12) 10 0 ∷ []))
        ≡ owes 30 2 (date 2024 2 29) ∷ [] }
    ensures in_vain { of_cause 2 (duties_on (date 2024 2 20) (valve 30 (date 2024 1 10)) (reads_in_vain (date 2024 2 12) 10 ∷ []))
        ≡ owes 30 2 (date 2024 2 29) ∷ [] }
    ensures other_event { of_cause 2 (duties_on (date 2024 2 20) (pump 5 (date 2024 1 10)) (dry (date 2024 2 12) ∷ [])) ≡ owes 5 2 (date 2024 2 29)
        ∷ [] }
    ensures before_the_beginning { of_cause 1 (duties_on (date 2024 1 20) (valve 30 (date 2024 1 10)) (reads (date 2024 1 5) 10 ∷ []))
        ≡ owes 30 1 (date 2024 2 9) ∷ [] }
{}

/// A reading from 1 January to 31 December meets the year, with and without no detectable emissions.
pub fn which_readings_meet_a_year()
    ensures last_day { of_cause 4 (duties_on (date 2025 1 10) (gear 30 Valve (class Gas Difficult) (date 2023 12 10)) (reads (date 2024 12 31) 10
        ∷ []))
        ≡ owes 30 4 (date 2025 12 31) ∷ [] }
    ensures next_year { of_cause 4 (duties_on (date 2025 1 10) (gear 30 Valve (class Gas Difficult) (date 2023 12 10)) (reads (date 2025 1 1) 10
        ∷ []))
        ≡ owes 30 4 (date 2024 12 31) ∷ has_done 30 4 (date 2025 12 31) (date 2025 1 1) ∷ [] }
    ensures year_before { of_cause 4 (duties_on (date 2024 6 1) (gear 30 Valve (class Gas Difficult) (date 2023 12 10)) (reads (date 2023 12 31) 10
        ∷ []))
        ≡ owes 30 4 (date 2024 12 31) ∷ [] }
    ensures nde_last_day { of_cause 4 (duties_on (date 2025 1 10) (gear 9 Compressor (class Gas Nde) (date 2023 12 10)) (reads (date 2024 12 31) 10
        ∷ []))
        ≡ owes 9 4 (date 2025 12 31) ∷ [] }
    ensures nde_next_year { of_cause 4 (duties_on (date 2025 1 10) (gear 9 Compressor (class Gas Nde) (date 2023 12 10)) (reads (date 2025 1 1) 10
        ∷ []))
        ≡ owes 9 4 (date 2024 12 31) ∷ has_done 9 4 (date 2025 12 31) (date 2025 1 1) ∷ [] }
    ensures nde_year_before { of_cause 4 (duties_on (date 2024 6 1) (gear 9 Compressor (class Gas Nde) (date 2023 12 10)) (reads (date 2023 12 31) 10
        ∷ []))
        ≡ owes 9 4 (date 2024 12 31) ∷ [] }
    ensures nde_first { of_cause 4 (duties_on (date 2024 6 1) (gear 9 Compressor (class Gas Nde) (date 2023 12 10)) (reads (date 2024 4 1) 10
        ∷ reads (date 2024 5 1) 10 ∷ []))
        ≡ has_done 9 4 (date 2024 12 31) (date 2024 4 1) ∷ [] }
{}

/// Only valves can be difficult to monitor; relief devices cannot be designated for no detectable emissions.
pub fn which_kinds_are_yearly()
    ensures difficult_pump { of_cause 4 (duties_on (date 2024 6 1) (gear 5 Pump (class Light Difficult) (date 2023 12 10)) []) ≡ [] }
    ensures relief_device { of_cause 4 (duties_on (date 2024 6 1) (gear 8 Relief (class Gas Nde) (date 2023 12 10)) []) ≡ [] }
{}

/// A pump has no month of a quarter.
pub fn a_pump_has_no_quarters()
    ensures { of_cause 3 (duties_on (date 2024 7 5) (pump 5 (date 2020 1 15)) (reads_by 2000 (date 2024 3 12) 10 ∷ reads_by 2000 (date 2024 4 12) 10
        ∷ [])) ≡ [] }
{}

/// A reading from the first day of the window's first month to the last day of its last month meets a window.
pub fn which_readings_meet_a_window()
    ensures month_before { of_cause 5 (duties_on (date 2024 3 1) (gear 30 Valve (unsafe_by Gas 5) (date 2024 1 15)) (reads (date 2024 1 31) 10 ∷ []))
        ≡ owes 30 5 (date 2024 6 30) ∷ [] }
    ensures month_after { of_cause 5 (duties_on (date 2024 7 5) (gear 30 Valve (unsafe_by Gas 5) (date 2024 1 15)) (reads (date 2024 7 1) 10 ∷ []))
        ≡ owes 30 5 (date 2024 6 30) ∷ has_done 30 5 (date 2024 11 30) (date 2024 7 1) ∷ [] }
{}

/// Plans of one month and of none, and a plan of a component that has no windows.
pub fn which_plans_have_windows()
    ensures one_month { of_cause 5 (duties_on (date 2024 2 20) (gear 30 Valve (unsafe_by Gas 1) (date 2024 1 15)) []) ≡ owes 30 5 (date 2024 2 29)
        ∷ [] }
    ensures no_month { of_cause 5 (duties_on (date 2024 2 20) (gear 30 Valve (unsafe_by Gas 0) (date 2024 1 15)) []) ≡ [] }
    ensures not_unsafe { of_cause 5 (duties_with (date 2024 2 20) (gear 30 Valve (unsafe_by Gas 5) (date 2024 1 15))
        (entered_on (date 2024 2 1) planned_difficult ∷ []) []) ≡ [] }
    ensures compressor { of_cause 5 (duties_on (date 2024 2 20) (gear 9 Compressor (unsafe_by Gas 5) (date 2024 1 15)) []) ≡ [] }
{}

/// The first visual inspection within a week meets it, whatever its result.
pub fn which_inspections_meet_a_week()
    ensures dry { of_cause 6 (duties_on (date 2024 1 24) (pump 5 (date 2024 1 15)) (dry (date 2024 1 23) ∷ designates (date 2024 1 24) ∷ []))
        ≡ has_done 5 6 (date 2024 1 28) (date 2024 1 23) ∷ [] }
    ensures designates { of_cause 6 (duties_on (date 2024 1 24) (pump 5 (date 2024 1 15)) (designates (date 2024 1 23) ∷ []))
        ≡ has_done 5 6 (date 2024 1 28) (date 2024 1 23) ∷ [] }
    ensures reading { of_cause 6 (duties_on (date 2024 1 24) (pump 5 (date 2024 1 15)) (reads_by 2000 (date 2024 1 23) 10 ∷ []))
        ≡ owes 5 6 (date 2024 1 28) ∷ [] }
{}

/// No due day is after the calendar's last day.
pub fn due_days_end_with_the_calendar()
    ensures first { of_cause 1 (duties_on (date 2099 12 20) (valve 30 (date 2099 12 15)) []) ≡ owes 30 1 (date 2099 12 31) ∷ [] }
    ensures year { of_cause 4 (duties_on (date 2099 12 20) (gear 30 Valve (class Gas Difficult) (date 2099 12 15)) []) ≡ owes 30 4 (date 2099 12 31)
        ∷ [] }
    ensures release { duties_on (date 2099 12 29) (relief 8 (date 2020 1 15)) (releases (date 2099 12 29) ∷ []) ≡ owes 8 8 (date 2099 12 31) ∷ [] }
{}

/// A month's place in its quarter is counted from the first month of the unit's quarters: May to July here. Quarter 1 can be quarterly; a leak before the two
/// clean months does not matter.
pub fn places_in_a_quarter()
    ensures places { map (month_in_quarter (date 2020 2 10)) (month 2020 5 ∷ month 2020 6 ∷ month 2020 7 ∷ month 2020 8 ∷ []) ≡ 1 ∷ 2 ∷ 3 ∷ 1 ∷ [] }
    ensures first_quarter { is_quarterly (date 2020 1 15) (reads (date 2020 2 12) 10 ∷ reads (date 2020 3 12) 10 ∷ []) (month 2020 4) ≡ true }
    ensures earlier_leak { is_quarterly (date 2020 1 15) (reads (date 2024 1 12) 620 ∷ reads (date 2024 3 12) 10 ∷ reads (date 2024 4 12) 10
        ∷ []) (month 2024 7) ≡ true }
{}
