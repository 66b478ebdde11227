//! Duties after an event, and what meets them: examples at the edges of each condition.
#![tactic(auto, unfolding(ldar_days::specs::Calendar::first_day, ldar_days::specs::Calendar::month_of, ldar_days::specs::Calendar::month_length, ldar_days::specs::Quarters::last_whole, ldar_days::specs::Quarters::first_quarter, list_words::specs::Ranges::until, crate::specs::Months::is_clean, crate::specs::Months::has_leak_in, crate::specs::Months::is_quarterly, crate::specs::Duties::duties_of, crate::specs::Duties::first_monitoring, crate::specs::Duties::monthly, crate::specs::Duties::quarterly, crate::specs::Duties::yearly, crate::specs::Duties::planned, crate::specs::Duties::weekly, crate::specs::Duties::drip, crate::specs::Duties::release, crate::specs::Duties::evidence))]

ghost use Rattle.std.specs.Prelude.{◌≡◌, [], false, true, ◌∷◌};
ghost use Rattle.fact_kinds.specs.declared.class.Designation.TheVariants.{Difficult, Nde, Plain};
ghost use Rattle.fact_kinds.specs.declared.class.Kind.TheVariants.{Pump, Relief, Valve};
ghost use Rattle.fact_kinds.specs.declared.class.Service.TheVariants.{Gas, Heavy, Light};
ghost use Rattle.ldar_law.specs.declared.event.Happening.TheVariants.{Look};
ghost use Rattle.ldar_law.specs.Short.{class, date, entered_on, gear, pump, relief, unsafe_by, valve};
ghost use Rattle.ldar_law.specs.ShortEvents.{attempts, designates, drips, dry, event, follows_up, reads, reads_by, reads_in_vain, releases, shows_evidence};
ghost use Rattle.ldar_law.specs.ShortLists.{duties_on, duties_with, has_done, of_cause, owes};

/// Drips of a pump with no detectable emissions lead to no duty.
pub fn drips_of_a_designated_pump_ask_for_nothing()
    ensures { of_cause 7 (duties_on (date 2024 2 20) (gear 5 Pump (class Light Nde) (date 2020 1 15)) (drips (date 2024 2 19) ∷ [])) ≡ [] }
{}

/// Drips can also repeat earlier ones that were designated as a leak.
pub fn drips_repeat_designated_ones()
    ensures { of_cause 7 (duties_on (date 2024 2 26) (pump 5 (date 2020 1 15)) (designates (date 2024 2 19)
        ∷ reads_by 2000 (date 2024 2 22) 1999 ∷ drips (date 2024 2 26) ∷ [])) ≡ [] }
{}

/// After a reading at the leak definition, drips do not repeat earlier ones.
pub fn a_reading_at_the_limit_leaves_drips_new()
    ensures { of_cause 7 (duties_on (date 2024 2 26) (pump 5 (date 2020 1 15)) (drips (date 2024 2 19)
        ∷ reads_by 2000 (date 2024 2 22) 2000 ∷ drips (date 2024 2 26) ∷ [])) ≡ owes 5 7 (date 2024 3 2) ∷ [] }
{}

/// The duty after an event can be met by a reading of any purpose.
pub fn a_follow_up_reading_serves_after_an_event()
    ensures release { duties_on (date 2024 2 24) (relief 8 (date 2020 1 15)) (releases (date 2024 2 20) ∷ follows_up (date 2024 2 24) 599 100 ∷ [])
        ≡ has_done 8 8 (date 2024 2 25) (date 2024 2 24) ∷ [] }
    ensures drip { of_cause 7 (duties_on (date 2024 2 22) (pump 5 (date 2020 1 15)) (drips (date 2024 2 19) ∷ follows_up (date 2024 2 22) 1999 0
        ∷ []))
        ≡ has_done 5 7 (date 2024 2 24) (date 2024 2 22) ∷ [] }
    ensures evidence { duties_on (date 2024 2 23) (gear 7 Pump (class Heavy Plain) (date 2020 1 15)) (shows_evidence (date 2024 2 20) true
        ∷ follows_up (date 2024 2 23) 9000 0 ∷ []) ≡ has_done 7 9 (date 2024 2 25) (date 2024 2 23) ∷ [] }
{}

/// A reading on the fifth day meets the duty.
pub fn the_fifth_day_serves()
    ensures drip { of_cause 7 (duties_on (date 2024 2 24) (pump 5 (date 2020 1 15)) (drips (date 2024 2 19) ∷ reads_by 2000 (date 2024 2 24) 1999
        ∷ []))
        ≡ has_done 5 7 (date 2024 2 24) (date 2024 2 24) ∷ [] }
    ensures release { duties_on (date 2024 2 25) (relief 8 (date 2020 1 15)) (releases (date 2024 2 20) ∷ reads (date 2024 2 25) 20 ∷ [])
        ≡ has_done 8 8 (date 2024 2 25) (date 2024 2 25) ∷ [] }
    ensures evidence { duties_on (date 2024 2 25) (gear 7 Pump (class Heavy Plain) (date 2020 1 15)) (shows_evidence (date 2024 2 20) true
        ∷ shows_evidence (date 2024 2 25) false ∷ []) ≡ has_done 7 9 (date 2024 2 25) (date 2024 2 25) ∷ [] }
{}

/// A reading on the sixth day does not meet the duty.
pub fn the_sixth_day_is_too_late()
    ensures release { duties_on (date 2024 2 27) (relief 8 (date 2020 1 15)) (releases (date 2024 2 20) ∷ reads (date 2024 2 26) 20 ∷ [])
        ≡ owes 8 8 (date 2024 2 25) ∷ [] }
    ensures evidence { duties_on (date 2024 2 27) (gear 7 Pump (class Heavy Plain) (date 2020 1 15)) (shows_evidence (date 2024 2 20) true
        ∷ shows_evidence (date 2024 2 26) false ∷ []) ≡ owes 7 9 (date 2024 2 25) ∷ [] }
{}

/// An event before the component begins leads to no duty.
pub fn an_event_before_the_beginning_asks_for_nothing()
    ensures release { duties_on (date 2024 2 20) (relief 8 (date 2024 2 21)) (releases (date 2024 2 20) ∷ []) ≡ [] }
    ensures evidence { duties_on (date 2024 2 20) (gear 7 Pump (class Heavy Plain) (date 2024 2 21)) (shows_evidence (date 2024 2 20) true ∷ [])
        ≡ [] }
{}

/// The first event that meets the duty counts; an event before its cause does not.
pub fn the_first_later_event_serves()
    ensures drip { of_cause 7 (duties_on (date 2024 2 24) (pump 5 (date 2020 1 15)) (drips (date 2024 2 19) ∷ reads_by 2000 (date 2024 2 22) 10
        ∷ designates (date 2024 2 23) ∷ []))
        ≡ has_done 5 7 (date 2024 2 24) (date 2024 2 22) ∷ [] }
    ensures release { duties_on (date 2024 2 25) (relief 8 (date 2020 1 15)) (reads (date 2024 2 19) 20 ∷ releases (date 2024 2 20)
        ∷ reads (date 2024 2 22) 20
        ∷ reads (date 2024 2 23) 20 ∷ []) ≡ has_done 8 8 (date 2024 2 25) (date 2024 2 22) ∷ [] }
    ensures evidence { duties_on (date 2024 2 25) (gear 7 Pump (class Heavy Plain) (date 2020 1 15)) (shows_evidence (date 2024 2 19) false
        ∷ shows_evidence (date 2024 2 20) true ∷ shows_evidence (date 2024 2 22) false ∷ shows_evidence (date 2024 2 23) false ∷ [])
        ≡ has_done 7 9 (date 2024 2 25) (date 2024 2 22) ∷ [] }
{}

/// Readings that do not count, and attempts, meet no duty; after evidence, a counting reading at the leak definition also meets it.
pub fn which_events_serve()
    ensures drip { of_cause 7 (duties_on (date 2024 2 22) (pump 5 (date 2020 1 15)) (drips (date 2024 2 19) ∷ attempts (date 2024 2 20)
        ∷ reads_in_vain (date 2024 2 21) 10 ∷ []))
        ≡ owes 5 7 (date 2024 2 24) ∷ [] }
    ensures drip_designated_in_vain { of_cause 7 (duties_on (date 2024 2 22) (pump 5 (date 2020 1 15)) (drips (date 2024 2 19)
        ∷ event (date 2024 2 21) (Look true true false) ∷ []))
        ≡ has_done 5 7 (date 2024 2 24) (date 2024 2 21) ∷ [] }
    ensures release { duties_on (date 2024 2 22) (relief 8 (date 2020 1 15)) (releases (date 2024 2 20) ∷ attempts (date 2024 2 21)
        ∷ reads_in_vain (date 2024 2 21) 10 ∷ [])
        ≡ owes 8 8 (date 2024 2 25) ∷ [] }
    ensures evidence { duties_on (date 2024 2 22) (gear 7 Pump (class Heavy Plain) (date 2020 1 15)) (shows_evidence (date 2024 2 20) true
        ∷ attempts (date 2024 2 21)
        ∷ reads_in_vain (date 2024 2 21) 10 ∷ []) ≡ owes 7 9 (date 2024 2 25) ∷ [] }
    ensures evidence_at_the_limit { duties_on (date 2024 2 22) (gear 7 Pump (class Heavy Plain) (date 2020 1 15))
        (shows_evidence (date 2024 2 20) true
        ∷ reads_by 10_000 (date 2024 2 22) 10_000 ∷ []) ≡ has_done 7 9 (date 2024 2 25) (date 2024 2 22) ∷ [] }
{}

/// No duty follows a dry inspection, an event after the view day, or a release at a component that is not under the
/// rules for relief devices.
pub fn which_events_ask()
    ensures dry { of_cause 7 (duties_on (date 2024 2 20) (pump 5 (date 2020 1 15)) (dry (date 2024 2 19) ∷ [])) ≡ [] }
    ensures valve { of_cause 8 (duties_on (date 2024 2 20) (valve 1 (date 2020 1 15)) (releases (date 2024 2 20) ∷ [])) ≡ [] }
    ensures later_drip { of_cause 7 (duties_on (date 2024 2 18) (pump 5 (date 2020 1 15)) (drips (date 2024 2 19) ∷ [])) ≡ [] }
    ensures later_release { duties_on (date 2024 2 19) (relief 8 (date 2020 1 15)) (releases (date 2024 2 20) ∷ []) ≡ [] }
    ensures later_evidence { duties_on (date 2024 2 19) (gear 7 Pump (class Heavy Plain) (date 2020 1 15)) (shows_evidence (date 2024 2 20) true
        ∷ []) ≡ [] }
{}

/// An event is judged by the service of its day.
pub fn an_event_is_judged_on_its_day()
    ensures release { of_cause 8 (duties_with (date 2024 2 22) (gear 8 Relief (class Light Plain) (date 2020 1 15)) (entered_on (date 2024 2 1)
        (class Gas Plain)
        ∷ entered_on (date 2024 2 21) (class Light Plain) ∷ []) (releases (date 2024 2 20) ∷ [])) ≡ owes 8 8 (date 2024 2 25) ∷ [] }
    ensures evidence { of_cause 9 (duties_with (date 2024 2 22) (pump 7 (date 2020 1 15)) (entered_on (date 2024 2 1) (class Heavy Plain)
        ∷ entered_on (date 2024 2 21) (class Light Plain) ∷ []) (shows_evidence (date 2024 2 20) true ∷ [])) ≡ owes 7 9 (date 2024 2 25) ∷ [] }
    ensures drip { of_cause 7 (duties_with (date 2024 2 22) (gear 5 Pump (class Heavy Plain) (date 2020 1 15)) (entered_on (date 2024 2 1)
        (class Light Plain)
        ∷ entered_on (date 2024 2 21) (class Heavy Plain) ∷ []) (drips (date 2024 2 20) ∷ [])) ≡ owes 5 7 (date 2024 2 25) ∷ [] }
{}

/// Only earlier drips make drips repeated: with a reading of any purpose since, and as long as the pump was not dry.
pub fn which_drips_are_repeated()
    ensures after_a_dry_look { of_cause 7 (duties_on (date 2024 2 26) (pump 5 (date 2020 1 15)) (dry (date 2024 2 19)
        ∷ reads_by 2000 (date 2024 2 22) 1999
        ∷ drips (date 2024 2 26) ∷ [])) ≡ owes 5 7 (date 2024 3 2) ∷ [] }
    ensures after_a_follow_up { of_cause 7 (duties_on (date 2024 2 26) (pump 5 (date 2020 1 15)) (drips (date 2024 2 10)
        ∷ follows_up (date 2024 2 12) 1999 0
        ∷ drips (date 2024 2 26) ∷ [])) ≡ [] }
    ensures third { of_cause 7 (duties_on (date 2024 2 26) (pump 5 (date 2020 1 15)) (drips (date 2024 2 19) ∷ reads_by 2000 (date 2024 2 22) 1999
        ∷ drips (date 2024 2 24) ∷ drips (date 2024 2 26) ∷ [])) ≡ [] }
    ensures dry_before { of_cause 7 (duties_on (date 2024 2 26) (pump 5 (date 2020 1 15)) (dry (date 2024 2 18) ∷ drips (date 2024 2 19)
        ∷ reads_by 2000 (date 2024 2 22) 1999
        ∷ drips (date 2024 2 26) ∷ [])) ≡ [] }
{}

/// The duties of a component are in order of cause.
pub fn duties_stand_by_cause()
    ensures pump { duties_on (date 2024 2 13) (pump 5 (date 2024 1 26)) (drips (date 2024 2 12) ∷ [])
        ≡ owes 5 1 (date 2024 2 25) ∷ owes 5 2 (date 2024 2 29) ∷ owes 5 6 (date 2024 2 4) ∷ owes 5 6 (date 2024 2 11)
        ∷ has_done 5 6 (date 2024 2 18) (date 2024 2 12) ∷ owes 5 7 (date 2024 2 17) ∷ [] }
    ensures quarter_and_year { duties_with (date 2024 8 10) (valve 1 (date 2024 1 15)) (entered_on (date 2024 8 5) (class Gas Difficult) ∷ [])
        (reads (date 2024 2 12) 10 ∷ reads (date 2024 5 12) 10 ∷ reads (date 2024 6 12) 10 ∷ [])
        ≡ owes 1 2 (date 2024 3 31) ∷ owes 1 2 (date 2024 4 30) ∷ owes 1 3 (date 2024 7 31) ∷ has_done 1 4 (date 2024 12 31) (date 2024 2 12) ∷ [] }
    ensures year_and_window { duties_with (date 2024 2 10) (gear 1 Valve (class Gas Difficult) (date 2022 12 15)) (entered_on (date 2024 1 10)
        (unsafe_by Gas 24) ∷ []) []
        ≡ owes 1 4 (date 2023 12 31) ∷ owes 1 5 (date 2024 12 31) ∷ [] }
    ensures window_and_week { duties_with (date 2024 3 9) (gear 5 Pump (unsafe_by Light 2) (date 2023 12 15)) (entered_on (date 2024 3 2)
        (class Light Plain) ∷ []) []
        ≡ owes 5 2 (date 2024 3 31) ∷ owes 5 5 (date 2024 2 29) ∷ owes 5 6 (date 2024 3 3) ∷ owes 5 6 (date 2024 3 10) ∷ [] }
    ensures drip_and_evidence { duties_with (date 2024 2 20) (pump 5 (date 2024 2 10)) (entered_on (date 2024 2 13) (class Heavy Plain) ∷ [])
        (drips (date 2024 2 12) ∷ shows_evidence (date 2024 2 14) true ∷ []) ≡ owes 5 7 (date 2024 2 17) ∷ owes 5 9 (date 2024 2 19) ∷ [] }
    ensures release_and_evidence { duties_with (date 2024 2 20) (relief 8 (date 2024 2 10)) (entered_on (date 2024 2 13) (class Light Plain) ∷ [])
        (releases (date 2024 2 12) ∷ shows_evidence (date 2024 2 14) true ∷ []) ≡ owes 8 8 (date 2024 2 17) ∷ owes 8 9 (date 2024 2 19) ∷ [] }
{}
