//! The day on which a period is judged: its last day, or the view day if that is earlier. The class and the service on that
//! day decide.
#![tactic(auto, unfolding(ldar_days::specs::Calendar::first_day, ldar_days::specs::Calendar::month_of, ldar_days::specs::Calendar::month_length, ldar_days::specs::Quarters::last_whole, ldar_days::specs::Quarters::first_quarter, list_words::specs::Ranges::until, crate::specs::Months::is_clean, crate::specs::Months::has_leak_in, crate::specs::Months::is_quarterly, crate::specs::Duties::duties_of, crate::specs::Duties::first_monitoring, crate::specs::Duties::monthly, crate::specs::Duties::quarterly, crate::specs::Duties::yearly, crate::specs::Duties::planned, crate::specs::Duties::weekly, crate::specs::Duties::drip, crate::specs::Duties::release, crate::specs::Duties::evidence))]

ghost use Rattle.std.specs.Prelude.{◌≡◌, [], ◌∷◌};
ghost use Rattle.fact_kinds.specs.declared.class.Designation.TheVariants.{Difficult, Nde, Plain};
ghost use Rattle.fact_kinds.specs.declared.class.Kind.TheVariants.{Compressor, Pump, Valve};
ghost use Rattle.fact_kinds.specs.declared.class.Service.TheVariants.{Gas, Heavy, Light};
ghost use Rattle.ldar_law.specs.Short.{class, date, entered_on, gear, pump, retired_gear, retired_valve, second_month, unsafe_by, valve};
ghost use Rattle.ldar_law.specs.ShortEvents.{reads, reads_over};
ghost use Rattle.ldar_law.specs.ShortLists.{duties_on, duties_with, of_cause, owes};

/// A month is judged by the class at its end.
pub fn a_month_by_the_class_that_it_ends_with()
    ensures designation { of_cause 2 (duties_with (date 2024 2 20) (gear 30 Valve (class Gas Difficult) (date 2024 1 10)) (entered_on (date 2024 2 1)
        (class Gas Plain) ∷ []) [])
        ≡ owes 30 2 (date 2024 2 29) ∷ [] }
    ensures service { of_cause 2 (duties_with (date 2024 2 20) (gear 30 Valve (class Heavy Plain) (date 2024 1 10)) (entered_on (date 2024 2 1)
        (class Gas Plain) ∷ []) [])
        ≡ owes 30 2 (date 2024 2 29) ∷ [] }
    ensures service_of_a_pump { of_cause 2 (duties_with (date 2024 2 20) (gear 5 Pump (class Heavy Plain) (date 2024 1 10))
        (entered_on (date 2024 2 1) (class Light Plain) ∷ []) [])
        ≡ owes 5 2 (date 2024 2 29) ∷ [] }
{}

/// Changes after a month, or after the view day, do not change the month.
pub fn a_month_is_not_judged_by_later_days()
    ensures designation { of_cause 2 (duties_with (date 2024 3 20) (valve 30 (date 2024 1 10)) (entered_on (date 2024 3 5) (class Gas Difficult)
        ∷ []) [])
        ≡ owes 30 2 (date 2024 2 29) ∷ [] }
    ensures service { of_cause 2 (duties_with (date 2024 3 20) (valve 30 (date 2024 1 10)) (entered_on (date 2024 3 5) (class Heavy Plain) ∷ []) [])
        ≡ owes 30 2 (date 2024 2 29) ∷ [] }
    ensures service_of_a_pump { of_cause 2 (duties_with (date 2024 3 20) (pump 5 (date 2024 1 10)) (entered_on (date 2024 3 5) (class Heavy Plain)
        ∷ []) [])
        ≡ owes 5 2 (date 2024 2 29) ∷ [] }
    ensures retired { of_cause 2 (duties_on (date 2024 3 20) (retired_valve 30 (date 2024 1 10) (date 2024 3 10)) [])
        ≡ owes 30 2 (date 2024 2 29) ∷ [] }
    ensures retired_after_the_view_day { of_cause 2 (duties_on (date 2024 2 20) (retired_valve 30 (date 2024 1 10) (date 2024 2 25)) [])
        ≡ owes 30 2 (date 2024 2 29) ∷ [] }
{}

/// A month of a quarter is judged by the class at its end.
pub fn a_quarter_month_by_the_class_that_it_ends_with()
    ensures designation { of_cause 3 (duties_with (date 2024 7 5) (gear 1 Valve (class Gas Difficult) (date 2020 1 15)) (entered_on (date 2024 7 1)
        (class Gas Plain) ∷ []) (reads (date 2024 3 12) 10
        ∷ reads (date 2024 4 12) 10 ∷ [])) ≡ owes 1 3 (date 2024 7 31) ∷ [] }
    ensures service { of_cause 3 (duties_with (date 2024 7 5) (gear 1 Valve (class Heavy Plain) (date 2020 1 15)) (entered_on (date 2024 7 1)
        (class Gas Plain) ∷ []) (reads (date 2024 3 12) 10
        ∷ reads (date 2024 4 12) 10 ∷ [])) ≡ owes 1 3 (date 2024 7 31) ∷ [] }
{}

/// Changes after a month of a quarter, or after the view day, do not change it; a class that moves the month adds
/// another one.
pub fn a_quarter_month_is_not_judged_by_later_days()
    ensures designation { of_cause 3 (duties_with (date 2024 8 20) (valve 1 (date 2020 1 15)) (entered_on (date 2024 8 5) (class Gas Difficult)
        ∷ []) (reads (date 2024 3 12) 10
        ∷ reads (date 2024 4 12) 10 ∷ [])) ≡ owes 1 3 (date 2024 7 31) ∷ [] }
    ensures service { of_cause 3 (duties_with (date 2024 8 20) (valve 1 (date 2020 1 15)) (entered_on (date 2024 8 5) (class Heavy Plain)
        ∷ []) (reads (date 2024 3 12) 10
        ∷ reads (date 2024 4 12) 10 ∷ [])) ≡ owes 1 3 (date 2024 7 31) ∷ [] }
    ensures month { of_cause 3 (duties_with (date 2024 8 20) (valve 1 (date 2020 1 15)) (entered_on (date 2024 8 5) second_month
        ∷ []) (reads (date 2024 3 12) 10
        ∷ reads (date 2024 4 12) 10 ∷ [])) ≡ owes 1 3 (date 2024 7 31) ∷ owes 1 3 (date 2024 8 31) ∷ [] }
    ensures retired { of_cause 3 (duties_on (date 2024 8 20) (retired_valve 1 (date 2020 1 15) (date 2024 8 5)) (reads (date 2024 3 12) 10
        ∷ reads (date 2024 4 12) 10 ∷ [])) ≡ owes 1 3 (date 2024 7 31) ∷ [] }
    ensures retired_after_the_view_day { of_cause 3 (duties_on (date 2024 7 5) (retired_valve 1 (date 2020 1 15) (date 2024 7 20))
        (reads (date 2024 3 12) 10
        ∷ reads (date 2024 4 12) 10 ∷ [])) ≡ owes 1 3 (date 2024 7 31) ∷ [] }
{}

/// A year is judged by the class at its end.
pub fn a_year_by_the_class_that_it_ends_with()
    ensures difficult { of_cause 4 (duties_with (date 2024 6 1) (valve 30 (date 2023 12 10)) (entered_on (date 2024 2 1) (class Gas Difficult)
        ∷ []) [])
        ≡ owes 30 4 (date 2024 12 31) ∷ [] }
    ensures service { of_cause 4 (duties_with (date 2024 6 1) (gear 30 Valve (class Heavy Difficult) (date 2023 12 10)) (entered_on (date 2024 2 1)
        (class Gas Difficult) ∷ []) [])
        ≡ owes 30 4 (date 2024 12 31) ∷ [] }
    ensures valve { of_cause 4 (duties_with (date 2024 6 1) (gear 30 Valve (class Heavy Nde) (date 2023 12 10)) (entered_on (date 2024 2 1)
        (class Gas Nde) ∷ []) [])
        ≡ owes 30 4 (date 2024 12 31) ∷ [] }
    ensures pump { of_cause 4 (duties_with (date 2024 6 1) (gear 5 Pump (class Heavy Nde) (date 2023 12 10)) (entered_on (date 2024 2 1)
        (class Light Nde) ∷ []) [])
        ≡ owes 5 4 (date 2024 12 31) ∷ [] }
    ensures compressor { of_cause 4 (duties_with (date 2024 6 1) (gear 9 Compressor (class Light Nde) (date 2023 12 10)) (entered_on (date 2024 2 1)
        (class Gas Nde) ∷ []) [])
        ≡ owes 9 4 (date 2024 12 31) ∷ [] }
    ensures designation { of_cause 4 (duties_with (date 2024 6 1) (gear 9 Compressor (class Gas Plain) (date 2023 12 10)) (entered_on (date 2024 2 1)
        (class Gas Nde) ∷ []) (reads_over (date 2024 5 1) 600 100 ∷ []))
        ≡ owes 9 4 (date 2024 12 31) ∷ [] }
{}

/// Changes after a year, or after the view day, do not change it.
pub fn a_year_is_not_judged_by_later_days()
    ensures difficult { of_cause 4 (duties_with (date 2025 2 1) (gear 30 Valve (class Gas Difficult) (date 2023 12 10)) (entered_on (date 2025 1 10)
        (class Gas Plain) ∷ []) [])
        ≡ owes 30 4 (date 2024 12 31) ∷ [] }
    ensures service { of_cause 4 (duties_with (date 2025 2 1) (gear 30 Valve (class Gas Difficult) (date 2023 12 10)) (entered_on (date 2025 1 10)
        (class Heavy Difficult) ∷ []) [])
        ≡ owes 30 4 (date 2024 12 31) ∷ [] }
    ensures valve { of_cause 4 (duties_with (date 2025 2 1) (gear 30 Valve (class Gas Nde) (date 2023 12 10)) (entered_on (date 2025 1 10)
        (class Heavy Nde) ∷ []) [])
        ≡ owes 30 4 (date 2024 12 31) ∷ [] }
    ensures pump { of_cause 4 (duties_with (date 2025 2 1) (gear 5 Pump (class Light Nde) (date 2023 12 10)) (entered_on (date 2025 1 10)
        (class Heavy Nde) ∷ []) [])
        ≡ owes 5 4 (date 2024 12 31) ∷ [] }
    ensures compressor { of_cause 4 (duties_with (date 2025 2 1) (gear 9 Compressor (class Gas Nde) (date 2023 12 10)) (entered_on (date 2025 1 10)
        (class Light Nde) ∷ []) [])
        ≡ owes 9 4 (date 2024 12 31) ∷ [] }
    ensures designation { of_cause 4 (duties_with (date 2025 2 1) (gear 9 Compressor (class Gas Nde) (date 2023 12 10)) (entered_on (date 2025 1 10)
        (class Gas Plain) ∷ []) [])
        ≡ owes 9 4 (date 2024 12 31) ∷ [] }
    ensures retired { of_cause 4 (duties_on (date 2025 2 1) (retired_gear 30 Valve (class Gas Difficult) (date 2023 12 10) (date 2025 1 10)) [])
        ≡ owes 30 4 (date 2024 12 31) ∷ [] }
    ensures retired_in_december { of_cause 4 (duties_on (date 2025 2 1) (retired_gear 30 Valve (class Gas Difficult) (date 2023 12 10)
        (date 2024 12 15)) []) ≡ [] }
    ensures retired_after_the_view_day { of_cause 4 (duties_on (date 2024 6 1) (retired_gear 30 Valve (class Gas Difficult) (date 2023 12 10)
        (date 2024 12 15)) [])
        ≡ owes 30 4 (date 2024 12 31) ∷ [] }
{}

/// The kind of reading that a year needs is judged on the same day.
pub fn a_reading_of_the_year_by_the_class_of_its_last_day()
    ensures past_year { of_cause 4 (duties_with (date 2025 2 1) (gear 30 Valve (class Gas Nde) (date 2023 12 10)) (entered_on (date 2025 1 10)
        (class Gas Plain) ∷ []) (reads_over (date 2024 5 1) 600 100 ∷ []))
        ≡ owes 30 4 (date 2024 12 31) ∷ [] }
    ensures in_december { of_cause 4 (duties_with (date 2025 2 1) (gear 30 Valve (class Gas Difficult) (date 2023 12 10))
        (entered_on (date 2024 12 15) (class Gas Nde)
        ∷ entered_on (date 2025 1 10) (class Gas Plain) ∷ []) (reads_over (date 2024 5 1) 600 100 ∷ [])) ≡ owes 30 4 (date 2024 12 31) ∷ [] }
    ensures view_day { of_cause 4 (duties_with (date 2024 6 1) (gear 30 Valve (class Gas Nde) (date 2023 12 10)) (entered_on (date 2024 7 1)
        (class Gas Difficult) ∷ []) (reads_over (date 2024 5 1) 600 100 ∷ []))
        ≡ owes 30 4 (date 2024 12 31) ∷ [] }
    ensures since_february { of_cause 4 (duties_with (date 2024 6 1) (gear 30 Valve (class Gas Difficult) (date 2023 12 10))
        (entered_on (date 2024 2 1) (class Gas Nde) ∷ []) (reads_over (date 2024 5 1) 600 100 ∷ []))
        ≡ owes 30 4 (date 2024 12 31) ∷ [] }
{}

/// A window and its plan are judged by the class at its end.
pub fn a_window_by_the_class_that_it_ends_with()
    ensures service { of_cause 5 (duties_with (date 2024 3 1) (gear 30 Valve (unsafe_by Heavy 5) (date 2024 1 15)) (entered_on (date 2024 2 1)
        (unsafe_by Gas 5) ∷ []) [])
        ≡ owes 30 5 (date 2024 6 30) ∷ [] }
    ensures service_of_a_pump { of_cause 5 (duties_with (date 2024 3 1) (gear 5 Pump (unsafe_by Heavy 5) (date 2024 1 15)) (entered_on (date 2024 2 1)
        (unsafe_by Light 5) ∷ []) [])
        ≡ owes 5 5 (date 2024 6 30) ∷ [] }
    ensures plan { of_cause 5 (duties_with (date 2024 3 1) (gear 30 Valve (unsafe_by Gas 5) (date 2024 1 15)) (entered_on (date 2024 2 1)
        (unsafe_by Gas 3) ∷ []) [])
        ≡ owes 30 5 (date 2024 4 30) ∷ [] }
{}

/// Changes after a window, or after the view day, do not change it; another plan has its own windows.
pub fn a_window_is_not_judged_by_later_days()
    ensures designation { of_cause 5 (duties_with (date 2024 7 5) (gear 30 Valve (unsafe_by Gas 5) (date 2024 1 15)) (entered_on (date 2024 7 3)
        (class Gas Plain) ∷ []) [])
        ≡ owes 30 5 (date 2024 6 30) ∷ [] }
    ensures service { of_cause 5 (duties_with (date 2024 7 5) (gear 30 Valve (unsafe_by Gas 5) (date 2024 1 15)) (entered_on (date 2024 7 3)
        (unsafe_by Heavy 5) ∷ []) [])
        ≡ owes 30 5 (date 2024 6 30) ∷ [] }
    ensures service_of_a_pump { of_cause 5 (duties_with (date 2024 7 5) (gear 5 Pump (unsafe_by Light 5) (date 2024 1 15)) (entered_on (date 2024 7 3)
        (unsafe_by Heavy 5) ∷ []) [])
        ≡ owes 5 5 (date 2024 6 30) ∷ [] }
    ensures plan { of_cause 5 (duties_with (date 2024 7 5) (gear 30 Valve (unsafe_by Gas 5) (date 2024 1 15)) (entered_on (date 2024 7 3)
        (unsafe_by Gas 12) ∷ []) [])
        ≡ owes 30 5 (date 2024 6 30) ∷ owes 30 5 (date 2025 1 31) ∷ [] }
    ensures plan_after_the_view_day { of_cause 5 (duties_with (date 2024 3 1) (gear 30 Valve (unsafe_by Gas 5) (date 2024 1 15))
        (entered_on (date 2024 3 2) (unsafe_by Gas 3) ∷ []) [])
        ≡ owes 30 5 (date 2024 6 30) ∷ [] }
    ensures retired { of_cause 5 (duties_on (date 2024 7 5) (retired_gear 30 Valve (unsafe_by Gas 5) (date 2024 1 15) (date 2024 7 3)) [])
        ≡ owes 30 5 (date 2024 6 30) ∷ [] }
    ensures retired_after_the_view_day { of_cause 5 (duties_on (date 2024 3 1) (retired_gear 30 Valve (unsafe_by Gas 5) (date 2024 1 15)
        (date 2024 5 1)) [])
        ≡ owes 30 5 (date 2024 6 30) ∷ [] }
{}

/// A week is judged by the class at its end.
pub fn a_week_by_the_class_that_it_ends_with()
    ensures designation { of_cause 6 (duties_with (date 2024 1 24) (gear 5 Pump (class Light Nde) (date 2024 1 15)) (entered_on (date 2024 1 22)
        (class Light Plain) ∷ []) [])
        ≡ owes 5 6 (date 2024 1 28) ∷ [] }
    ensures service { of_cause 6 (duties_with (date 2024 1 24) (gear 5 Pump (class Heavy Plain) (date 2024 1 15)) (entered_on (date 2024 1 22)
        (class Light Plain) ∷ []) [])
        ≡ owes 5 6 (date 2024 1 28) ∷ [] }
{}

/// Changes after a week, or after the view day, do not change it.
pub fn a_week_is_not_judged_by_later_days()
    ensures designation { of_cause 6 (duties_with (date 2024 1 31) (pump 5 (date 2024 1 15)) (entered_on (date 2024 1 30) (class Light Nde) ∷ []) [])
        ≡ owes 5 6 (date 2024 1 28) ∷ [] }
    ensures service { of_cause 6 (duties_with (date 2024 1 31) (pump 5 (date 2024 1 15)) (entered_on (date 2024 1 30) (class Heavy Plain) ∷ []) [])
        ≡ owes 5 6 (date 2024 1 28) ∷ [] }
    ensures retired { of_cause 6 (duties_on (date 2024 1 31) (retired_gear 5 Pump (class Light Plain) (date 2024 1 15) (date 2024 1 30)) [])
        ≡ owes 5 6 (date 2024 1 28) ∷ [] }
    ensures retired_after_the_view_day { of_cause 6 (duties_on (date 2024 1 24) (retired_gear 5 Pump (class Light Plain) (date 2024 1 15)
        (date 2024 1 27)) [])
        ≡ owes 5 6 (date 2024 1 28) ∷ [] }
{}

/// A first monitoring is judged by the service on its last day or the view day, and by the component's first designation.
pub fn a_first_monitoring_by_service_and_first_designation()
    ensures service { of_cause 1 (duties_with (date 2024 1 20) (gear 30 Valve (class Heavy Plain) (date 2024 1 10)) (entered_on (date 2024 1 12)
        (class Gas Plain) ∷ []) [])
        ≡ owes 30 1 (date 2024 2 9) ∷ [] }
    ensures service_of_a_pump { of_cause 1 (duties_with (date 2024 1 20) (gear 5 Pump (class Heavy Plain) (date 2024 1 10))
        (entered_on (date 2024 1 12) (class Light Plain) ∷ []) [])
        ≡ owes 5 1 (date 2024 2 9) ∷ [] }
    ensures later_service { of_cause 1 (duties_with (date 2024 2 20) (valve 30 (date 2024 1 10)) (entered_on (date 2024 2 15) (class Heavy Plain)
        ∷ []) [])
        ≡ owes 30 1 (date 2024 2 9) ∷ [] }
    ensures later_designation { of_cause 1 (duties_with (date 2024 1 20) (valve 30 (date 2024 1 10)) (entered_on (date 2024 1 12)
        (class Gas Difficult) ∷ []) [])
        ≡ owes 30 1 (date 2024 2 9) ∷ [] }
    ensures first_designation { of_cause 1 (duties_with (date 2024 1 20) (valve 30 (date 2024 1 10)) (entered_on (date 2024 1 10)
        (class Gas Difficult) ∷ []) []) ≡ [] }
    ensures retired_after_the_view_day { of_cause 1 (duties_on (date 2024 1 20) (retired_valve 30 (date 2024 1 10) (date 2024 2 1)) [])
        ≡ owes 30 1 (date 2024 2 9) ∷ [] }
{}
