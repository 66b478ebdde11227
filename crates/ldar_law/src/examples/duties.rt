//! What must be done, for each of the nine causes.
#![tactic(auto, unfolding(ldar_days::specs::Calendar::first_day, ldar_days::specs::Calendar::month_of, ldar_days::specs::Calendar::month_length, ldar_days::specs::Quarters::last_whole, ldar_days::specs::Quarters::first_quarter, list_words::specs::Ranges::until, crate::specs::Months::is_clean, crate::specs::Months::has_leak_in, crate::specs::Months::is_quarterly, crate::specs::Duties::duties_of, crate::specs::Duties::first_monitoring, crate::specs::Duties::monthly, crate::specs::Duties::quarterly, crate::specs::Duties::yearly, crate::specs::Duties::planned, crate::specs::Duties::weekly, crate::specs::Duties::drip, crate::specs::Duties::release, crate::specs::Duties::evidence))]

ghost use Rattle.std.specs.Prelude.{◌≡◌, [], ◌∷◌, true, false};
ghost use Rattle.fact_kinds.specs.declared.class.Designation.TheVariants.{Plain, Nde, Difficult};
ghost use Rattle.fact_kinds.specs.declared.class.Kind.TheVariants.{Valve, Pump, Compressor};
ghost use Rattle.fact_kinds.specs.declared.class.Service.TheVariants.{Gas, Heavy};
ghost use Rattle.ldar_law.specs.Months.{is_quarterly};
ghost use Rattle.ldar_law.specs.Short.{date, month, class, unsafe_by, gear, valve, pump, relief, retired_valve, replacing_valve};
ghost use Rattle.ldar_law.specs.ShortEvents.{reads, reads_by, reads_over, dry, drips, designates, releases, shows_evidence};
ghost use Rattle.ldar_law.specs.ShortLists.{of_cause, duties_on, duties_of_30, owes, has_done};

/// Two clean months before a quarter make a valve quarterly from that quarter on (40 CFR 60.482-7a(c)(1)). The unit's
/// quarters begin with January, April, July and October.
pub fn two_clean_months_make_the_next_quarter_quarterly()
    ensures may { is_quarterly (date 2020 1 15) (reads (date 2024 3 12) 10 ∷ reads (date 2024 4 12) 10 ∷ []) (month 2024 5)
        ≡ false }
    ensures june { is_quarterly (date 2020 1 15) (reads (date 2024 3 12) 10 ∷ reads (date 2024 4 12) 10 ∷ []) (month 2024 6)
        ≡ false }
    ensures july { is_quarterly (date 2020 1 15) (reads (date 2024 3 12) 10 ∷ reads (date 2024 4 12) 10 ∷ []) (month 2024 7)
        ≡ true }
    ensures august { is_quarterly (date 2020 1 15) (reads (date 2024 3 12) 10
        ∷ reads (date 2024 4 12) 10 ∷ []) (month 2024 8) ≡ true }
    // Two months that are not in a row are not enough, nor is a month with follow-up readings only, nor one with a
    // leak.
    ensures gap { is_quarterly (date 2020 1 15) (reads (date 2024 2 12) 10 ∷ reads (date 2024 4 12) 10 ∷ []) (month 2024 7)
        ≡ false }
    ensures leak { is_quarterly (date 2020 1 15) (reads (date 2024 3 12) 10 ∷ reads (date 2024 4 12) 10
        ∷ reads (date 2024 4 20) 700 ∷ []) (month 2024 7) ≡ false }
    // A leak in a month of the quarter ends it from the next month on.
    ensures same_month { is_quarterly (date 2020 1 15) (reads (date 2024 3 12) 10 ∷ reads (date 2024 4 12) 10
        ∷ reads (date 2024 7 20) 700 ∷ []) (month 2024 7) ≡ true }
    ensures next_month { is_quarterly (date 2020 1 15) (reads (date 2024 3 12) 10 ∷ reads (date 2024 4 12) 10
        ∷ reads (date 2024 7 20) 700 ∷ []) (month 2024 8) ≡ false }
    // Months before quarter 1 are in no quarter.
    ensures before { is_quarterly (date 2020 1 15) (reads (date 2020 1 20) 10
        ∷ reads (date 2020 2 12) 10 ∷ []) (month 2020 3) ≡ false }
{}

/// A valve that begins with its unit is monitored each month, from the month after.
pub fn a_new_valve_is_monthly()
    ensures first_month { duties_of_30 [] [] (date 2024 1 31) ≡ [] }
    ensures open { duties_of_30 [] [] (date 2024 2 20) ≡ owes 30 2 (date 2024 2 29) ∷ [] }
    ensures done { duties_of_30 (reads (date 2024 2 10) 10 ∷ []) [] (date 2024 2 20)
        ≡ has_done 30 2 (date 2024 2 29) (date 2024 2 10) ∷ [] }
    ensures done_and_past { duties_of_30 (reads (date 2024 2 10) 10 ∷ reads (date 2024 3 10) 10 ∷ []) [] (date 2024 3 20)
        ≡ has_done 30 2 (date 2024 3 31) (date 2024 3 10) ∷ [] }
{}

/// A valve that is clean in February and March is quarterly from April on; a leak in April that arrives late ends that.
pub fn a_late_leak_undoes_quarterly_months()
    ensures none { duties_of_30 (reads (date 2024 2 10) 10 ∷ reads (date 2024 3 10) 10 ∷ reads (date 2024 4 10) 10
        ∷ reads (date 2024 7 10) 10 ∷ []) (false ∷ false ∷ []) (date 2024 9 10) ≡ [] }
    ensures undone { duties_of_30 (reads (date 2024 2 10) 10 ∷ reads (date 2024 3 10) 10 ∷ reads (date 2024 4 10) 10
        ∷ reads (date 2024 4 20) 700 ∷ reads (date 2024 7 10) 10 ∷ []) (false ∷ false ∷ []) (date 2024 9 10)
        ≡ owes 30 2 (date 2024 5 31) ∷ owes 30 2 (date 2024 6 30) ∷ owes 30 2 (date 2024 8 31) ∷ owes 30 2 (date 2024 9 30)
        ∷ [] }
{}

/// A quarterly valve is monitored in its month of the quarter, unless the quarter is skipped.
pub fn a_quarterly_valve_has_its_month()
    ensures july { duties_of_30 (reads (date 2024 2 10) 10 ∷ reads (date 2024 3 10) 10
        ∷ reads (date 2024 4 10) 10 ∷ []) (false ∷ false ∷ []) (date 2024 7 5) ≡ owes 30 3 (date 2024 7 31) ∷ [] }
    ensures skipped { duties_of_30 (reads (date 2024 2 10) 10 ∷ reads (date 2024 3 10) 10
        ∷ reads (date 2024 4 10) 10 ∷ []) (false ∷ true ∷ []) (date 2024 7 5) ≡ [] }
{}

/// A valve that begins after the unit's startup is monitored within thirty days (40 CFR 60.482-7a(a)(2)).
pub fn a_valve_put_in_later_has_a_first_monitoring()
    ensures open { duties_on (date 2024 1 20) (valve 30 (date 2024 1 10)) [] ≡ owes 30 1 (date 2024 2 9) ∷ [] }
    ensures done { duties_on (date 2024 1 20) (valve 30 (date 2024 1 10)) (reads (date 2024 1 15) 10 ∷ [])
        ≡ has_done 30 1 (date 2024 2 9) (date 2024 1 15) ∷ [] }
    ensures missed { duties_on (date 2024 2 10) (valve 30 (date 2024 1 10)) []
        ≡ owes 30 1 (date 2024 2 9) ∷ owes 30 2 (date 2024 2 29) ∷ [] }
    ensures year_later { of_cause 1 (duties_on (date 2025 2 9) (valve 30 (date 2024 1 10)) [])
        ≡ owes 30 1 (date 2024 2 9) ∷ [] }
    ensures a_day_more { of_cause 1 (duties_on (date 2025 2 10) (valve 30 (date 2024 1 10)) []) ≡ [] }
{}

/// A valve owes no first monitoring if it begins with the unit, replaces a leaking one, has a designation when it begins, or is
/// retired before.
pub fn some_valves_have_no_first_monitoring()
    ensures at_startup { of_cause 1 (duties_on (date 2020 1 20) (valve 30 (date 2020 1 15)) []) ≡ [] }
    ensures replacing { duties_on (date 2024 1 20) (replacing_valve 30 (date 2024 1 10)) [] ≡ [] }
    ensures designated { of_cause 1 (duties_on (date 2024 1 20) (gear 30 Valve (class Gas Difficult) (date 2024 1 10)) [])
        ≡ [] }
    ensures retired { duties_on (date 2024 2 10) (retired_valve 30 (date 2024 1 10) (date 2024 2 1)) [] ≡ [] }
{}

/// A valve that is difficult to monitor is monitored in each calendar year (40 CFR 60.482-7a(h)).
pub fn a_difficult_valve_is_yearly()
    ensures open { duties_on (date 2024 3 1) (gear 30 Valve (class Gas Difficult) (date 2023 12 10)) []
        ≡ owes 30 4 (date 2024 12 31) ∷ [] }
    ensures no_year_before { duties_on (date 2023 12 20) (gear 30 Valve (class Gas Difficult) (date 2023 12 10)) [] ≡ [] }
    ensures missed { duties_on (date 2025 1 1) (gear 30 Valve (class Gas Difficult) (date 2023 12 10)) []
        ≡ owes 30 4 (date 2024 12 31) ∷ owes 30 4 (date 2025 12 31) ∷ [] }
    ensures done { duties_on (date 2024 6 1) (gear 30 Valve (class Gas Difficult) (date 2023 12 10))
        (reads (date 2024 5 1) 700 ∷ []) ≡ has_done 30 4 (date 2024 12 31) (date 2024 5 1) ∷ [] }
{}

/// With no detectable emissions, the yearly reading must be less than 500 above the background (40 CFR 60.482-7a(f)).
pub fn no_detectable_emissions_are_confirmed_yearly()
    ensures met { duties_on (date 2024 6 1) (gear 9 Compressor (class Gas Nde) (date 2023 12 10))
        (reads_over (date 2024 5 1) 599 100 ∷ []) ≡ has_done 9 4 (date 2024 12 31) (date 2024 5 1) ∷ [] }
    ensures not_met { duties_on (date 2024 6 1) (gear 9 Compressor (class Gas Nde) (date 2023 12 10))
        (reads_over (date 2024 5 1) 600 100 ∷ []) ≡ owes 9 4 (date 2024 12 31) ∷ [] }
    ensures below_background { duties_on (date 2024 6 1) (gear 9 Compressor (class Gas Nde) (date 2023 12 10))
        (reads_over (date 2024 5 1) 20 100 ∷ []) ≡ has_done 9 4 (date 2024 12 31) (date 2024 5 1) ∷ [] }
{}

/// A valve that is unsafe to monitor has the windows of its plan, from the month after it begins on (40 CFR
/// 60.482-7a(g)(2)).
pub fn an_unsafe_valve_has_its_plan()
    ensures first_window { duties_on (date 2024 3 1) (gear 30 Valve (unsafe_by Gas 5) (date 2024 1 15)) []
        ≡ owes 30 5 (date 2024 6 30) ∷ [] }
    ensures second_window { duties_on (date 2024 7 5) (gear 30 Valve (unsafe_by Gas 5) (date 2024 1 15)) []
        ≡ owes 30 5 (date 2024 6 30) ∷ owes 30 5 (date 2024 11 30) ∷ [] }
    ensures done { duties_on (date 2024 6 5) (gear 30 Valve (unsafe_by Gas 5) (date 2024 1 15))
        (reads (date 2024 2 1) 10 ∷ []) ≡ has_done 30 5 (date 2024 6 30) (date 2024 2 1) ∷ [] }
    ensures not_begun { duties_on (date 2024 1 31) (gear 30 Valve (unsafe_by Gas 5) (date 2024 1 15)) [] ≡ [] }
{}

/// A pump is inspected each week, from the week after it begins on; a week is Monday to Sunday (40 CFR
/// 60.482-2a(a)(2)).
pub fn a_pump_is_looked_at_each_week()
    ensures first_week { of_cause 6 (duties_on (date 2024 1 21) (pump 5 (date 2024 1 15)) []) ≡ [] }
    ensures open { of_cause 6 (duties_on (date 2024 1 22) (pump 5 (date 2024 1 15)) []) ≡ owes 5 6 (date 2024 1 28) ∷ [] }
    ensures missed { of_cause 6 (duties_on (date 2024 1 30) (pump 5 (date 2024 1 15)) (drips (date 2024 1 29) ∷ []))
        ≡ owes 5 6 (date 2024 1 28) ∷ has_done 5 6 (date 2024 2 4) (date 2024 1 29) ∷ [] }
{}

/// A pump is monitored each month, whatever its readings were (40 CFR 60.482-2a(a)(1)).
pub fn a_pump_is_never_quarterly()
    ensures { of_cause 2 (duties_on (date 2020 7 5) (pump 5 (date 2020 1 15)) (reads_by 2000 (date 2020 2 10) 10
        ∷ reads_by 2000 (date 2020 3 10) 10 ∷ reads_by 2000 (date 2020 4 10) 10 ∷ reads_by 2000 (date 2020 5 10) 10
        ∷ reads_by 2000 (date 2020 6 10) 10 ∷ [])) ≡ owes 5 2 (date 2020 7 31) ∷ [] }
{}

/// Drips must be read or designated within five days (40 CFR 60.482-2a(b)(2)).
pub fn drips_are_read_or_designated()
    ensures open { of_cause 7 (duties_on (date 2024 2 20) (pump 5 (date 2020 1 15)) (drips (date 2024 2 19) ∷ []))
        ≡ owes 5 7 (date 2024 2 24) ∷ [] }
    ensures read { of_cause 7 (duties_on (date 2024 2 22) (pump 5 (date 2020 1 15)) (drips (date 2024 2 19)
        ∷ reads_by 2000 (date 2024 2 22) 1999 ∷ [])) ≡ has_done 5 7 (date 2024 2 24) (date 2024 2 22) ∷ [] }
    ensures designated { of_cause 7 (duties_on (date 2024 2 22) (pump 5 (date 2020 1 15)) (drips (date 2024 2 19)
        ∷ designates (date 2024 2 21) ∷ [])) ≡ has_done 5 7 (date 2024 2 24) (date 2024 2 21) ∷ [] }
    ensures too_late { of_cause 7 (duties_on (date 2024 2 26) (pump 5 (date 2020 1 15)) (drips (date 2024 2 19)
        ∷ reads_by 2000 (date 2024 2 25) 1999 ∷ [])) ≡ owes 5 7 (date 2024 2 24) ∷ [] }
{}

/// Drips after a reading below the leak definition need no further reading, unless the pump was dry since the earlier
/// drips.
pub fn repeated_drips_ask_for_nothing()
    ensures repeated { of_cause 7 (duties_on (date 2024 2 26) (pump 5 (date 2020 1 15)) (drips (date 2024 2 19)
        ∷ reads_by 2000 (date 2024 2 22) 1999 ∷ drips (date 2024 2 26) ∷ [])) ≡ [] }
    ensures dry_since { of_cause 7 (duties_on (date 2024 2 26) (pump 5 (date 2020 1 15)) (drips (date 2024 2 19)
        ∷ reads_by 2000 (date 2024 2 22) 1999 ∷ dry (date 2024 2 24) ∷ drips (date 2024 2 26) ∷ []))
        ≡ owes 5 7 (date 2024 3 2) ∷ [] }
    ensures not_read { of_cause 7 (duties_on (date 2024 2 21) (pump 5 (date 2020 1 15)) (drips (date 2024 2 19)
        ∷ drips (date 2024 2 21) ∷ [])) ≡ owes 5 7 (date 2024 2 24) ∷ owes 5 7 (date 2024 2 26) ∷ [] }
{}

/// After a release, a relief device must be read within five days, less than 500 above the background (40 CFR
/// 60.482-4a(b)).
pub fn a_release_is_followed_by_a_reading()
    ensures open { duties_on (date 2024 2 20) (relief 8 (date 2020 1 15)) (releases (date 2024 2 20) ∷ [])
        ≡ owes 8 8 (date 2024 2 25) ∷ [] }
    ensures met { duties_on (date 2024 2 24) (relief 8 (date 2020 1 15)) (releases (date 2024 2 20)
        ∷ reads_over (date 2024 2 24) 599 100 ∷ []) ≡ has_done 8 8 (date 2024 2 25) (date 2024 2 24) ∷ [] }
    ensures not_met { duties_on (date 2024 2 24) (relief 8 (date 2020 1 15)) (releases (date 2024 2 20)
        ∷ reads_over (date 2024 2 24) 600 100 ∷ []) ≡ owes 8 8 (date 2024 2 25) ∷ [] }
{}

/// Evidence of a leak in heavy liquid service must be read within five days, or found gone (40 CFR 60.482-8a(a)).
pub fn evidence_is_read_or_gone()
    ensures open { duties_on (date 2024 2 21) (gear 7 Pump (class Heavy Plain) (date 2020 1 15)) (shows_evidence (date 2024 2 20) true ∷ [])
        ≡ owes 7 9 (date 2024 2 25) ∷ [] }
    ensures gone { duties_on (date 2024 2 23) (gear 7 Pump (class Heavy Plain) (date 2020 1 15))
        (shows_evidence (date 2024 2 20) true ∷ shows_evidence (date 2024 2 22) false ∷ [])
        ≡ has_done 7 9 (date 2024 2 25) (date 2024 2 22) ∷ [] }
    ensures read { duties_on (date 2024 2 23) (gear 7 Pump (class Heavy Plain) (date 2020 1 15))
        (shows_evidence (date 2024 2 20) true ∷ reads_by 10_000 (date 2024 2 23) 9_000 ∷ [])
        ≡ has_done 7 9 (date 2024 2 25) (date 2024 2 23) ∷ [] }
    ensures other { duties_on (date 2024 2 21) (gear 9 Compressor (class Gas Plain) (date 2020 1 15)) (shows_evidence (date 2024 2 20) true ∷ []) ≡ [] }
{}
