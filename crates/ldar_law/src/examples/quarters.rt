//! Percent leaking, skipped quarters, and routes.
#![tactic(auto, unfolding(ldar_days::specs::Calendar::first_day, ldar_days::specs::Calendar::month_of, ldar_days::specs::Calendar::month_length, ldar_days::specs::Quarters::last_whole, ldar_days::specs::Quarters::first_quarter, list_words::specs::Ranges::until, crate::specs::Spans::spans_of, crate::specs::Tags::tag_of, crate::specs::Months::is_clean, crate::specs::Months::has_leak_in, crate::specs::Months::is_clean_twice_from, crate::specs::Percent::mark_of, crate::specs::Skips::good_streak, crate::specs::Skips::skips_run, crate::specs::Skips::quarters, crate::specs::Skips::is_skipped, crate::specs::Routes::routes_of))]

ghost use Rattle.std.specs.Prelude.{◌≡◌, [], false, replicate, true, ◌++◌, ◌∷◌};
ghost use Rattle.fact_kinds.specs.declared.class.Designation.TheVariants.{Nde, Plain};
ghost use Rattle.fact_kinds.specs.declared.class.Kind.TheVariants.{Valve};
ghost use Rattle.fact_kinds.specs.declared.class.Service.TheVariants.{Gas, Heavy};
ghost use Rattle.ldar_law.specs.Percent.{is_good, tally_of};
ghost use Rattle.ldar_law.specs.Routes.{routes_of};
ghost use Rattle.ldar_law.specs.Short.{class, date, entered_on, gear, pump, replacing_valve, retired_valve, valve};
ghost use Rattle.ldar_law.specs.ShortEvents.{attempts, delays, designates, follows_up, leaks_in_a_follow_up, reads, reads_in_vain};
ghost use Rattle.ldar_law.specs.ShortLists.{bad_quarters, clean, elects, found, good_quarters, has_done, known, mark_on, mark_with, owes, route, uncounted};
ghost use Rattle.ldar_law.specs.Skips.{is_skipped, skipped_to};
ghost use Rattle.ldar_law.specs.Units.{mark_in};

/// A quarter is good if at least one valve was monitored and at most 2 percent of those monitored leak (40 CFR
/// 60.483-2a(b)(2)).
pub fn two_percent_are_good()
    ensures three_of_150 { is_good (tally_of (replicate 3 found ++ replicate 147 clean)) ≡ true }
    ensures four_of_200 { is_good (tally_of (replicate 4 found ++ replicate 196 clean)) ≡ true }
    ensures four_of_199 { is_good (tally_of (replicate 4 found ++ replicate 195 clean)) ≡ false }
    ensures none { is_good (tally_of (replicate 3 uncounted)) ≡ false }
{}

/// A valve is counted by its counting routine readings in the quarter (40 CFR 60.485a(h)). Quarter 17 of the unit is April to June
/// 2024.
pub fn a_valve_counts_by_its_readings()
    ensures clean { mark_on (date 2024 6 30) 17 (valve 1 (date 2020 1 15)) (reads (date 2024 4 1) 499 ∷ []) ≡ clean }
    ensures leaking { mark_on (date 2024 6 30) 17 (valve 1 (date 2020 1 15)) (reads (date 2024 4 1) 10
        ∷ reads (date 2024 6 30) 500 ∷ []) ≡ found }
    ensures day_before { mark_on (date 2024 6 30) 17 (valve 1 (date 2020 1 15)) (reads (date 2024 3 31) 700 ∷ [])
        ≡ uncounted }
    ensures nde { mark_on (date 2024 6 30) 17 (gear 1 Valve (class Gas Nde) (date 2020 1 15))
        (reads (date 2024 4 1) 499 ∷ []) ≡ uncounted }
    ensures pump { mark_on (date 2024 6 30) 17 (pump 5 (date 2020 1 15)) (reads (date 2024 4 1) 499 ∷ []) ≡ uncounted }
{}

/// A valve whose repair is delayed counts as monitored and leaking without a reading in the quarter.
pub fn a_delayed_valve_counts()
    ensures delayed { mark_on (date 2024 6 30) 17 (valve 1 (date 2020 1 15)) (reads (date 2024 2 20) 620
        ∷ delays (date 2024 3 1) 1 (date 2024 8 10) ∷ []) ≡ found }
    ensures isolated { mark_on (date 2024 6 30) 17 (valve 1 (date 2020 1 15)) (reads (date 2024 2 20) 620
        ∷ delays (date 2024 3 1) 2 (date 2024 8 10) ∷ []) ≡ found }
    ensures withdrawn { mark_on (date 2024 6 30) 17 (valve 1 (date 2020 1 15)) (reads (date 2024 2 20) 620
        ∷ delays (date 2024 3 1) 1 (date 2024 8 10) ∷ delays (date 2024 3 5) 0 (date 2024 8 10) ∷ []) ≡ uncounted }
    ensures ignored { mark_on (date 2024 6 30) 17 (valve 1 (date 2020 1 15)) (reads (date 2024 2 20) 620
        ∷ delays (date 2024 3 7) 1 (date 2024 8 10) ∷ []) ≡ uncounted }
    // A tag that is closed on the quarter's last day is closed.
    ensures closed { mark_on (date 2024 7 31) 17 (valve 1 (date 2020 1 15)) (reads (date 2024 2 20) 620
        ∷ delays (date 2024 3 1) 1 (date 2024 8 10) ∷ attempts (date 2024 6 30) ∷ reads (date 2024 6 30) 10 ∷ []) ≡ clean }
    ensures closed_after { mark_on (date 2024 7 31) 17 (valve 1 (date 2020 1 15)) (reads (date 2024 2 20) 620
        ∷ delays (date 2024 3 1) 1 (date 2024 8 10) ∷ attempts (date 2024 6 30) ∷ reads (date 2024 7 1) 10 ∷ []) ≡ found }
{}

/// A valve that begins in the quarter and misses its first monitoring counts as monitored and leaking (our own rule).
pub fn a_missed_first_monitoring_counts()
    ensures missed { mark_on (date 2024 5 11) 17 (valve 1 (date 2024 4 10)) [] ≡ found }
    ensures not_past { mark_on (date 2024 5 10) 17 (valve 1 (date 2024 4 10)) [] ≡ uncounted }
    ensures made { mark_on (date 2024 5 11) 17 (valve 1 (date 2024 4 10)) (reads (date 2024 5 10) 10 ∷ []) ≡ clean }
    ensures replacing { mark_on (date 2024 5 11) 17 (replacing_valve 1 (date 2024 4 10)) [] ≡ uncounted }
    ensures years_later { mark_on (date 2027 1 1) 17 (valve 1 (date 2024 4 10)) [] ≡ found }
{}

/// In mode 1 one quarter is skipped after two good ones (40 CFR 60.483-2a(b)(2)). Quarter 18 begins on 2024-07-01.
pub fn mode_1_skips_every_other_quarter()
    ensures skipped { is_skipped (bad_quarters 15 ++ good_quarters 2) (elects (date 2024 7 1) 1 ∷ []) (date 2020 1 15) 18
        ≡ true }
    ensures not_the_next { is_skipped
        (bad_quarters 15 ++ good_quarters 3) (elects (date 2024 7 1) 1 ∷ []) (date 2020 1 15) 19 ≡ false }
    ensures after_19 { is_skipped (bad_quarters 15 ++ good_quarters 4) (elects (date 2024 7 1) 1 ∷ []) (date 2020 1 15) 20
        ≡ true }
    ensures bad_17 { is_skipped
        (bad_quarters 15 ++ good_quarters 1 ++ bad_quarters 1) (elects (date 2024 7 1) 1 ∷ []) (date 2020 1 15) 18 ≡ false }
    // The counts of a skipped quarter do not matter: 17 and 19 are the last two.
    ensures bad_18 { is_skipped
        (bad_quarters 15 ++ good_quarters 2 ++ bad_quarters 1 ++ good_quarters 1) (elects (date 2024 7 1) 1 ∷ []) (date 2020 1 15) 20 ≡ true }
    ensures no_quarter_before { is_skipped [] (elects (date 2020 1 15) 1 ∷ []) (date 2020 1 15) 1 ≡ false }
{}

/// In mode 3 at most three quarters in a row are skipped after five good ones (40 CFR 60.483-2a(b)(3)).
pub fn mode_3_skips_three_quarters_in_a_row()
    ensures { skipped_to (good_quarters 14) (elects (date 2020 1 15) 3 ∷ []) (date 2020 1 15) 14
        ≡ false ∷ false ∷ false ∷ false ∷ false ∷ true ∷ true ∷ true ∷ false ∷ true ∷ true ∷ true ∷ false ∷ true ∷ [] }
{}

/// In mode 3, five good quarters are needed again after a bad one.
pub fn mode_3_wants_five_good_quarters()
    ensures four { is_skipped (good_quarters 4) (elects (date 2020 1 15) 3 ∷ []) (date 2020 1 15) 5 ≡ false }
    ensures bad { skipped_to
        (good_quarters 8 ++ bad_quarters 1 ++ good_quarters 5) (elects (date 2020 1 15) 3 ∷ []) (date 2020 1 15) 15
        ≡ false ∷ false ∷ false ∷ false ∷ false ∷ true ∷ true ∷ true ∷ false ∷ false ∷ false ∷ false ∷ false ∷ false ∷ true
        ∷ [] }
{}

/// The election in force is the last one with a day up to the quarter's first day.
pub fn the_last_election_is_in_force()
    ensures none { is_skipped (good_quarters 17) [] (date 2020 1 15) 18 ≡ false }
    ensures ended { is_skipped (good_quarters 17) (elects (date 2024 1 1) 1
        ∷ elects (date 2024 7 1) 0 ∷ []) (date 2020 1 15) 18 ≡ false }
    ensures later { is_skipped (good_quarters 17) (elects (date 2024 7 2) 1 ∷ []) (date 2020 1 15) 18 ≡ false }
    ensures changed { is_skipped (good_quarters 17) (elects (date 2024 1 1) 0
        ∷ elects (date 2024 7 1) 1 ∷ []) (date 2020 1 15) 18 ≡ true }
{}

/// Components at which something must be done, each once, by due day and number, in routes of two.
pub fn routes_by_due_day()
    ensures two_stops { routes_of (owes 3 2 (date 2024 2 29) ∷ owes 1 2 (date 2024 2 25) ∷ owes 2 2 (date 2024 2 29) ∷ []) 2
        ≡ route (1 ∷ 2 ∷ []) ∷ route (3 ∷ []) ∷ [] }
    ensures one_stop { routes_of (owes 3 2 (date 2024 2 29) ∷ owes 1 2 (date 2024 2 25) ∷ owes 2 2 (date 2024 2 29) ∷ []) 1
        ≡ route (1 ∷ []) ∷ route (2 ∷ []) ∷ route (3 ∷ []) ∷ [] }
    ensures enough { routes_of (owes 3 2 (date 2024 2 29) ∷ owes 1 2 (date 2024 2 25) ∷ owes 2 2 (date 2024 2 29) ∷ []) 9
        ≡ route (1 ∷ 2 ∷ 3 ∷ []) ∷ [] }
    // A duty that is done needs no visit; two duties of a component need one.
    ensures done { routes_of (has_done 1 2 (date 2024 2 25) (date 2024 2 20) ∷ owes 2 2 (date 2024 2 29)
        ∷ owes 2 6 (date 2024 2 25) ∷ owes 3 2 (date 2024 2 26) ∷ []) 2 ≡ route (2 ∷ 3 ∷ []) ∷ [] }
    ensures nothing { routes_of [] 2 ≡ [] }
{}

/// A first monitoring is judged on its last day, even if the view day is after the end of the quarter.
pub fn a_first_monitoring_missed_after_the_quarter_counts()
    ensures { mark_on (date 2024 8 1) 17 (valve 1 (date 2024 6 15)) [] ≡ found }
{}

/// Readings of another purpose and readings that do not count are not counted, nor is a leak of a follow-up reading.
pub fn which_readings_are_counted()
    ensures follow_up { mark_on (date 2024 6 30) 17 (valve 1 (date 2020 1 15)) (follows_up (date 2024 4 1) 10 0 ∷ []) ≡ uncounted }
    ensures in_vain { mark_on (date 2024 6 30) 17 (valve 1 (date 2020 1 15)) (reads_in_vain (date 2024 4 1) 10 ∷ []) ≡ uncounted }
    ensures leak_of_a_follow_up { mark_on (date 2024 6 30) 17 (valve 1 (date 2020 1 15)) (reads (date 2024 4 1) 10
        ∷ leaks_in_a_follow_up (date 2024 5 1) ∷ []) ≡ clean }
    ensures leak_of_another { mark_on (date 2024 6 30) 17 (valve 1 (date 2020 1 15)) (reads (date 2024 4 1) 10 ∷ designates (date 2024 5 1) ∷ [])
        ≡ clean }
    ensures leaking_pump { mark_on (date 2024 6 30) 17 (pump 5 (date 2020 1 15)) (reads (date 2024 4 1) 620 ∷ []) ≡ uncounted }
{}

/// A valve is counted by its class on the quarter's last day, or on the view day if that is earlier.
pub fn a_quarter_is_judged_on_its_last_day()
    ensures no_longer_nde { mark_with (date 2024 8 1) 17 (gear 1 Valve (class Gas Nde) (date 2020 1 15)) (entered_on (date 2024 5 1)
        (class Gas Plain) ∷ []) (reads (date 2024 4 1) 10 ∷ []) ≡ clean }
    ensures nde_in_july { mark_with (date 2024 8 1) 17 (valve 1 (date 2020 1 15)) (entered_on (date 2024 7 15) (class Gas Nde)
        ∷ []) (reads (date 2024 4 1) 10 ∷ []) ≡ clean }
    ensures nde_in_june { mark_with (date 2024 8 1) 17 (valve 1 (date 2020 1 15)) (entered_on (date 2024 6 30) (class Gas Nde)
        ∷ []) (reads (date 2024 4 1) 10 ∷ []) ≡ uncounted }
    ensures no_longer_heavy { mark_with (date 2024 8 1) 17 (gear 1 Valve (class Heavy Plain) (date 2020 1 15)) (entered_on (date 2024 5 1)
        (class Gas Plain) ∷ []) (reads (date 2024 4 1) 10 ∷ []) ≡ clean }
    ensures heavy_in_july { mark_with (date 2024 8 1) 17 (valve 1 (date 2020 1 15)) (entered_on (date 2024 7 15) (class Heavy Plain)
        ∷ []) (reads (date 2024 4 1) 10 ∷ []) ≡ clean }
    ensures view_day { mark_with (date 2024 5 1) 17 (valve 1 (date 2020 1 15)) (entered_on (date 2024 6 15) (class Gas Nde)
        ∷ []) (reads (date 2024 4 1) 10 ∷ []) ≡ clean }
    ensures retired { mark_on (date 2024 8 1) 17 (retired_valve 1 (date 2020 1 15) (date 2024 4 15)) (reads (date 2024 4 1) 10 ∷ []) ≡ clean }
{}

/// A delayed tag counts on the days on which it is open.
pub fn a_delay_counts_while_its_tag_is_open()
    ensures detected_after { mark_on (date 2024 8 1) 17 (valve 1 (date 2020 1 15)) (reads (date 2024 7 1) 620
        ∷ delays (date 2024 7 5) 1 (date 2024 9 10) ∷ []) ≡ uncounted }
    ensures detected_on_the_last_day { mark_on (date 2024 8 1) 17 (valve 1 (date 2020 1 15)) (leaks_in_a_follow_up (date 2024 6 30)
        ∷ delays (date 2024 7 5) 1 (date 2024 9 10) ∷ []) ≡ found }
    ensures view_day { mark_on (date 2024 5 1) 17 (valve 1 (date 2020 1 15)) (reads (date 2024 2 20) 620 ∷ delays (date 2024 3 1) 1 (date 2024 9 10)
        ∷ attempts (date 2024 5 10) ∷ follows_up (date 2024 5 10) 10 0 ∷ []) ≡ found }
{}

/// A missed first monitoring counts only in the quarter in which its valve begins, and only if it was owed.
pub fn which_first_monitorings_count()
    ensures quarter_before { mark_on (date 2024 5 11) 16 (valve 1 (date 2024 4 10)) [] ≡ uncounted }
    ensures quarter_after { mark_on (date 2024 8 1) 18 (valve 1 (date 2024 4 10)) [] ≡ uncounted }
    ensures retired_before { mark_on (date 2024 5 11) 17 (retired_valve 1 (date 2024 4 10) (date 2024 5 1)) [] ≡ uncounted }
    ensures retired_after { mark_on (date 2024 6 11) 17 (retired_valve 1 (date 2024 4 10) (date 2024 6 1)) [] ≡ found }
    ensures at_the_startup { mark_in (date 2024 4 10) (date 2025 1 1) 1 (known (valve 1 (date 2024 4 10)) [] []) ≡ uncounted }
    ensures before_the_beginning { mark_on (date 2024 5 11) 17 (valve 1 (date 2024 4 10)) (reads (date 2024 4 9) 10 ∷ []) ≡ found }
{}

/// One good quarter is not enough for mode 1, and a quarter without counts is not good.
pub fn mode_1_wants_two_good_quarters()
    ensures one { is_skipped (bad_quarters 16 ++ good_quarters 1) (elects (date 2024 7 1) 1 ∷ []) (date 2020 1 15) 18 ≡ false }
    ensures no_counts { is_skipped [] (elects (date 2020 1 15) 1 ∷ []) (date 2020 1 15) 3 ≡ false }
    ensures nothing_elected { is_skipped (good_quarters 17) (elects (date 2024 1 1) 0 ∷ []) (date 2020 1 15) 18 ≡ false }
{}

/// The order of the duties does not change a route: it is by due day, then by number.
pub fn routes_in_order()
    ensures same_day { routes_of (owes 2 2 (date 2024 2 29) ∷ owes 3 2 (date 2024 2 29) ∷ []) 2 ≡ route (2 ∷ 3 ∷ []) ∷ [] }
    ensures same_day_turned { routes_of (owes 3 2 (date 2024 2 29) ∷ owes 2 2 (date 2024 2 29) ∷ []) 2 ≡ route (2 ∷ 3 ∷ []) ∷ [] }
    ensures higher_number_first { routes_of (owes 1 2 (date 2024 2 29) ∷ owes 3 6 (date 2024 2 25) ∷ []) 2 ≡ route (3 ∷ 1 ∷ []) ∷ [] }
    ensures higher_number_first_turned { routes_of (owes 3 6 (date 2024 2 25) ∷ owes 1 2 (date 2024 2 29) ∷ []) 2 ≡ route (3 ∷ 1 ∷ []) ∷ [] }
    ensures cause { routes_of (owes 1 2 (date 2024 2 29) ∷ owes 2 6 (date 2024 2 25) ∷ owes 3 1 (date 2024 2 26) ∷ []) 3 ≡ route (2 ∷ 3 ∷ 1 ∷ [])
        ∷ [] }
{}
