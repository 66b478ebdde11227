//! Due days of repairs, and which delays count (40 CFR 60.482-9a).
#![tactic(auto, unfolding(ldar_days::specs::Calendar::first_day, ldar_days::specs::Calendar::month_of, ldar_days::specs::Calendar::month_length, crate::specs::Spans::spans_of, crate::specs::Tags::tag_of, crate::specs::Months::is_clean, crate::specs::Months::has_leak_in, crate::specs::Months::is_clean_twice_from))]

ghost use Rattle.std.specs.Prelude.{◌≡◌, None, Some, [], false, map, true, ◌∷◌};
ghost use Rattle.fact_kinds.specs.declared.class.Kind.TheVariants.{Valve};
ghost use Rattle.ldar_law.specs.declared.delay.Until.TheVariants.{Date, NoDate, Shutdown, WhileIsolated};
ghost use Rattle.ldar_law.specs.Delays.{attempt_by, counted_place, repair_due};
ghost use Rattle.ldar_law.specs.Short.{date};
ghost use Rattle.ldar_law.specs.ShortEvents.{attempts, delay, delay_until, delays, line, reads, retires, stop, tag};
ghost use Rattle.ldar_law.specs.Tags.{delay_lines, is_late, is_shown, tags_of};

/// Without a delay, a leak must be repaired within fifteen days (40 CFR 60.482-7a(d)(1)).
pub fn without_a_delay_fifteen_days()
    ensures { repair_due (date 2024 2 20) [] [] [] ≡ Date (date 2024 3 6) }
{}

/// Ground (a): until the end of the first shutdown that begins after the detection.
pub fn infeasible_without_a_shutdown()
    ensures unknown { repair_due (date 2024 2 20) [] [] (delay (date 2024 3 1) 1 ∷ []) ≡ Shutdown }
    ensures known { repair_due (date 2024 2 20) [] (stop (date 2024 6 1) (date 2024 6 14) ∷ []) (delay (date 2024 3 1) 1 ∷ [])
        ≡ Date (date 2024 6 14) }
    // After an attempt in the shutdown, fifteen days follow the startup to verify it.
    ensures attempted { repair_due (date 2024 2 20) (date 2024 6 5 ∷ []) (stop (date 2024 6 1) (date 2024 6 14) ∷ []) (delay (date 2024 3 1) 1 ∷ [])
        ≡ Date (date 2024 6 30) }
    ensures attempted_after { repair_due (date 2024 2 20) (date 2024 6 15 ∷ []) (stop (date 2024 6 1) (date 2024 6 14) ∷ []) (delay (date 2024 3 1) 1
        ∷ []) ≡ Date (date 2024 6 14) }
    // A shutdown that began on the day of the detection or before does not count.
    ensures begun { repair_due (date 2024 2 20) [] (stop (date 2024 2 20) (date 2024 3 10) ∷ []) (delay (date 2024 3 1) 1 ∷ []) ≡ Shutdown }
{}

/// Ground (b): as long as the component is isolated.
pub fn isolated_from_the_process()
    ensures { repair_due (date 2024 2 20) [] [] (delay (date 2024 3 1) 2 ∷ []) ≡ WhileIsolated }
{}

/// Ground (c): no date.
pub fn purging_emits_more()
    ensures { repair_due (date 2024 2 20) [] [] (delay (date 2024 3 1) 3 ∷ []) ≡ NoDate }
{}

/// Ground (d): six months after the detection; from 31 August to the last day of February.
pub fn a_dual_seal_within_six_months()
    ensures { repair_due (date 2023 8 31) [] [] (delay (date 2023 9 5) 4 ∷ []) ≡ Date (date 2024 2 29) }
{}

/// Ground (e): the end of the second shutdown after the detection.
pub fn valve_stock_until_the_second_shutdown()
    ensures none { repair_due (date 2024 2 20) [] [] (delay (date 2024 3 1) 5 ∷ []) ≡ Shutdown }
    ensures one { repair_due (date 2024 2 20) [] (stop (date 2024 4 1) (date 2024 4 10) ∷ []) (delay (date 2024 3 1) 5 ∷ [])
        ≡ Shutdown }
    ensures two { repair_due (date 2024 2 20) [] (stop (date 2024 4 1) (date 2024 4 10)
        ∷ stop (date 2024 10 1) (date 2024 10 10) ∷ []) (delay (date 2024 3 1) 5 ∷ []) ≡ Date (date 2024 10 10) }
{}

/// Ground (e): the end of the third shutdown if the second begins less than six months after the first began.
pub fn valve_stock_until_the_third_shutdown()
    ensures unknown { repair_due (date 2024 2 20) [] (stop (date 2024 4 1) (date 2024 4 10)
        ∷ stop (date 2024 9 30) (date 2024 10 9) ∷ []) (delay (date 2024 3 1) 5 ∷ []) ≡ Shutdown }
    ensures known { repair_due (date 2024 2 20) [] (stop (date 2024 4 1) (date 2024 4 10)
        ∷ stop (date 2024 9 30) (date 2024 10 9)
        ∷ stop (date 2025 1 7) (date 2025 1 12) ∷ []) (delay (date 2024 3 1) 5 ∷ []) ≡ Date (date 2025 1 12) }
    ensures attempted { repair_due (date 2024 2 20) (date 2025 1 12 ∷ []) (stop (date 2024 4 1) (date 2024 4 10)
        ∷ stop (date 2024 9 30) (date 2024 10 9)
        ∷ stop (date 2025 1 7) (date 2025 1 12) ∷ []) (delay (date 2024 3 1) 5 ∷ []) ≡ Date (date 2025 1 28) }
{}

/// After a withdrawal, the due day is the fifteenth day, or the day of the withdrawal if that is later (our own rule).
pub fn a_withdrawn_delay()
    ensures early { repair_due (date 2024 2 20) [] [] (delay (date 2024 2 25) 1 ∷ delay (date 2024 3 1) 0 ∷ [])
        ≡ Date (date 2024 3 6) }
    ensures late { repair_due (date 2024 2 20) [] [] (delay (date 2024 2 25) 1 ∷ delay (date 2024 5 2) 0 ∷ [])
        ≡ Date (date 2024 5 2) }
    ensures counts { counted_place (date 2024 2 20) [] [] (delay (date 2024 2 25) 1 ∷ delay (date 2024 5 2) 0 ∷ [])
        ≡ Some 1 }
{}

/// A delay whose day is past the due day so far is ignored (our own rule).
pub fn a_late_delay_is_ignored()
    ensures on_the_day { counted_place (date 2024 2 20) [] [] (delay (date 2024 3 6) 1 ∷ []) ≡ Some 0 }
    ensures a_day_late { counted_place (date 2024 2 20) [] [] (delay (date 2024 3 7) 1 ∷ []) ≡ None }
    ensures due { repair_due (date 2024 2 20) [] [] (delay (date 2024 3 7) 1 ∷ []) ≡ Date (date 2024 3 6) }
    // After an ignored delay the due day is still the one before.
    ensures both { counted_place (date 2024 2 20) [] [] (delay (date 2024 3 7) 3 ∷ delay (date 2024 3 8) 1 ∷ []) ≡ None }
    // A due day that is no date never passes.
    ensures no_date { counted_place (date 2024 2 20) [] [] (delay (date 2024 3 1) 3 ∷ delay (date 2026 3 1) 1 ∷ [])
        ≡ Some 1 }
{}

/// A shutdown that is entered later can change which delay is ignored.
pub fn a_known_shutdown_ends_a_delay()
    ensures unknown { counted_place (date 2024 2 20) [] [] (delay (date 2024 3 1) 1 ∷ delay (date 2024 7 1) 3 ∷ [])
        ≡ Some 1 }
    ensures known { counted_place (date 2024 2 20) [] (stop (date 2024 6 1) (date 2024 6 14) ∷ []) (delay (date 2024 3 1) 1
        ∷ delay (date 2024 7 1) 3 ∷ []) ≡ Some 0 }
{}

/// A tag that is closed on its due day is not late; a day later it is.
pub fn a_tag_is_late_after_its_due_day()
    ensures in_time { map (is_late (date 2024 3 31)) (tags_of 1 Valve (reads (date 2024 2 20) 620
        ∷ attempts (date 2024 2 22) ∷ reads (date 2024 3 6) 20 ∷ []) []) ≡ false ∷ [] }
    ensures late { map (is_late (date 2024 3 31)) (tags_of 1 Valve (reads (date 2024 2 20) 620 ∷ attempts (date 2024 2 22)
        ∷ reads (date 2024 3 7) 20 ∷ []) []) ≡ true ∷ [] }
    ensures open { map (is_late (date 2024 3 6)) (tags_of 1 Valve (reads (date 2024 2 20) 620 ∷ []) []) ≡ false ∷ [] }
    ensures open_past { map (is_late (date 2024 3 7)) (tags_of 1 Valve (reads (date 2024 2 20) 620 ∷ []) []) ≡ true ∷ [] }
    ensures delayed { map (is_late (date 2024 12 31)) (tags_of 1 Valve (reads (date 2024 2 20) 620
        ∷ delays (date 2024 3 1) 1 (date 2024 6 10) ∷ []) []) ≡ false ∷ [] }
{}

/// A tag with its due days, its first attempt and its closing (40 CFR 60.486a(c)).
pub fn tags_with_their_due_days()
    ensures open { tags_of 1 Valve (reads (date 2024 2 20) 620 ∷ []) []
        ≡ tag 1 (date 2024 2 20) None (Date (date 2024 3 6)) None None false ∷ [] }
    ensures removable { tags_of 1 Valve (reads (date 2024 2 20) 620 ∷ attempts (date 2024 2 22) ∷ reads (date 2024 3 6) 20
        ∷ reads (date 2024 4 2) 20 ∷ []) []
        ≡ tag 1 (date 2024 2 20) (Some (date 2024 2 22)) (Date (date 2024 3 6)) (Some (date 2024 3 6)) None true ∷ [] }
    // For a shutdown, the tag's own attempts and attempts for other tags count.
    ensures delayed { tags_of 1 Valve (reads (date 2024 2 20) 620 ∷ delays (date 2024 3 1) 1 (date 2024 6 10)
        ∷ attempts (date 2024 6 5) ∷ []) (stop (date 2024 6 1) (date 2024 6 14) ∷ [])
        ≡ tag 1 (date 2024 2 20) (Some (date 2024 6 5)) (Date (date 2024 6 30)) None (Some (delay_until (date 2024 3 1) 1 (date 2024 6 10))) false
        ∷ [] }
    // A delay after the closing is not a delay of the tag.
    ensures closed { tags_of 1 Valve (reads (date 2024 2 20) 620 ∷ attempts (date 2024 2 22) ∷ reads (date 2024 3 1) 20
        ∷ delays (date 2024 3 2) 1 (date 2024 6 10) ∷ []) []
        ≡ tag 1 (date 2024 2 20) (Some (date 2024 2 22)) (Date (date 2024 3 6)) (Some (date 2024 3 1)) None false ∷ [] }
{}

/// A closed tag stays on the list for 366 days (our own rule).
pub fn a_closed_tag_is_shown_for_a_year()
    ensures shown { is_shown (date 2025 3 7) (tag 1 (date 2024 2 20) None (Date (date 2024 3 6)) (Some (date 2024 3 6)) None true) ≡ true }
    ensures gone { is_shown (date 2025 3 8) (tag 1 (date 2024 2 20) None (Date (date 2024 3 6)) (Some (date 2024 3 6)) None true) ≡ false }
    ensures open { is_shown (date 2030 1 1) (tag 1 (date 2024 2 20) None (Date (date 2024 3 6)) None None false) ≡ true }
{}

/// The list of delays contains the open tags whose last counted delay has a ground (a) to (e).
pub fn the_list_of_delays()
    ensures delayed { delay_lines (tags_of 1 Valve (reads (date 2024 2 20) 620
        ∷ delays (date 2024 3 1) 1 (date 2024 6 10) ∷ []) [])
        ≡ line 1 (date 2024 2 20) (delay_until (date 2024 3 1) 1 (date 2024 6 10)) Shutdown ∷ [] }
    ensures ignored { delay_lines (tags_of 1 Valve (reads (date 2024 2 20) 620
        ∷ delays (date 2024 3 7) 1 (date 2024 6 10) ∷ []) []) ≡ [] }
    ensures withdrawn { delay_lines (tags_of 1 Valve (reads (date 2024 2 20) 620 ∷ delays (date 2024 3 1) 1 (date 2024 6 10)
        ∷ delays (date 2024 3 2) 0 (date 2024 6 10) ∷ []) []) ≡ [] }
    ensures closed { delay_lines (tags_of 1 Valve (reads (date 2024 2 20) 620 ∷ delays (date 2024 3 1) 1 (date 2024 6 10)
        ∷ retires (date 2024 3 5) ∷ []) []) ≡ [] }
{}

/// An attempt on the first or the last day of a shutdown is in it; an attempt on the day before is not.
pub fn an_attempt_lies_in_a_shutdown()
    ensures first_day { repair_due (date 2024 2 20) (date 2024 6 1 ∷ []) (stop (date 2024 6 1) (date 2024 6 14) ∷ []) (delay (date 2024 3 1) 1 ∷ [])
        ≡ Date (date 2024 6 30) }
    ensures last_day { repair_due (date 2024 2 20) (date 2024 6 14 ∷ []) (stop (date 2024 6 1) (date 2024 6 14) ∷ []) (delay (date 2024 3 1) 1 ∷ [])
        ≡ Date (date 2024 6 30) }
    ensures day_before { repair_due (date 2024 2 20) (date 2024 5 31 ∷ []) (stop (date 2024 6 1) (date 2024 6 14) ∷ []) (delay (date 2024 3 1) 1
        ∷ []) ≡ Date (date 2024 6 14) }
{}

/// A shutdown counts if it begins after the detection, even if it is over before the delay is entered.
pub fn a_shutdown_counts_from_the_detection()
    ensures first { repair_due (date 2024 2 20) [] (stop (date 2024 2 21) (date 2024 2 28) ∷ []) (delay (date 2024 3 1) 1 ∷ [])
        ≡ Date (date 2024 2 28) }
    ensures before_the_delay { repair_due (date 2024 2 20) [] (stop (date 2024 2 21) (date 2024 2 28) ∷ stop (date 2024 8 25) (date 2024 9 1)
        ∷ stop (date 2025 3 1) (date 2025 3 9) ∷ []) (delay (date 2024 3 1) 5 ∷ []) ≡ Date (date 2024 9 1) }
    ensures second { repair_due (date 2024 2 20) [] (stop (date 2024 1 5) (date 2024 1 9) ∷ stop (date 2024 8 1) (date 2024 8 9)
        ∷ stop (date 2025 3 1) (date 2025 3 9) ∷ []) (delay (date 2024 3 1) 5 ∷ []) ≡ Date (date 2025 3 9) }
{}

/// No due day is after the calendar's last day.
pub fn due_days_end_with_the_calendar()
    ensures repair { repair_due (date 2099 12 20) [] [] [] ≡ Date (date 2099 12 31) }
    ensures attempt { attempt_by (date 2099 12 28) ≡ date 2099 12 31 }
    ensures shutdown { repair_due (date 2099 2 20) (date 2099 12 21 ∷ []) (stop (date 2099 12 20) (date 2099 12 25) ∷ []) (delay (date 2099 3 1) 1
        ∷ []) ≡ Date (date 2099 12 31) }
{}

/// A delay before the detection is not a delay of the tag, and a reading in a shutdown is no attempt.
pub fn what_belongs_to_a_tag()
    ensures delay { tags_of 1 Valve (delays (date 2024 2 10) 1 (date 2024 6 10) ∷ reads (date 2024 2 20) 620 ∷ []) []
        ≡ tag 1 (date 2024 2 20) None (Date (date 2024 3 6)) None None false ∷ [] }
    ensures attempt { tags_of 1 Valve (reads (date 2024 2 20) 620 ∷ delays (date 2024 3 1) 1 (date 2024 6 10) ∷ reads (date 2024 6 5) 700
        ∷ []) (stop (date 2024 6 1) (date 2024 6 14) ∷ [])
        ≡ tag 1 (date 2024 2 20) None (Date (date 2024 6 14)) None (Some (delay_until (date 2024 3 1) 1 (date 2024 6 10))) false ∷ [] }
{}
