//! What settles a leak, and what does not: examples at the edges of each condition (40 CFR 60.481a, 60.482-9a(f)).
#![tactic(auto, unfolding(ldar_days::specs::Calendar::first_day, ldar_days::specs::Calendar::month_of, ldar_days::specs::Calendar::month_length, crate::specs::Spans::spans_of, crate::specs::Months::is_clean, crate::specs::Months::has_leak_in, crate::specs::Months::is_clean_twice_from))]

ghost use Rattle.std.specs.Prelude.{◌≡◌, None, Some, [], false, true, ◌∷◌};
ghost use Rattle.fact_kinds.specs.declared.class.Kind.TheVariants.{Compressor, Pump, Relief, Valve};
ghost use Rattle.ldar_law.specs.declared.event.Happening.TheVariants.{Look};
ghost use Rattle.ldar_law.specs.Months.{is_clean, is_clean_twice};
ghost use Rattle.ldar_law.specs.Settling.{is_settled};
ghost use Rattle.ldar_law.specs.Short.{date, key, month};
ghost use Rattle.ldar_law.specs.ShortEvents.{attempts, completes, counts_above, delays, designates, drips, dry, event};
ghost use Rattle.ldar_law.specs.ShortEvents.{far_below, follows_up, leaks_in_a_follow_up, reads, reads_by, reads_in_vain};
ghost use Rattle.ldar_law.specs.ShortEvents.{releases, retires, sensor_leak, sensor_silent, shows_evidence, span};
ghost use Rattle.ldar_law.specs.Spans.{spans_of};

/// After an attempt, a follow-up reading settles a leak; a reading that does not count, or is at the leak definition, does not.
pub fn which_readings_settle()
    ensures follow_up { spans_of Valve (reads (date 2024 2 20) 620 ∷ attempts (date 2024 2 22) ∷ follows_up (date 2024 3 6) 20 0 ∷ [])
        ≡ span (date 2024 2 20) (Some (date 2024 2 22)) (Some (key (date 2024 3 6) 600)) false ∷ [] }
    ensures in_vain { spans_of Valve (reads (date 2024 2 20) 620 ∷ attempts (date 2024 2 22) ∷ reads_in_vain (date 2024 3 6) 20 ∷ [])
        ≡ span (date 2024 2 20) (Some (date 2024 2 22)) None false ∷ [] }
    ensures not_below { spans_of Compressor (sensor_leak (date 2024 2 20) ∷ attempts (date 2024 2 22) ∷ reads (date 2024 3 6) 20 ∷ [])
        ≡ span (date 2024 2 20) (Some (date 2024 2 22)) None false ∷ [] }
    ensures counts_without_being_below { spans_of Valve (reads (date 2024 2 20) 620 ∷ attempts (date 2024 2 22) ∷ counts_above (date 2024 3 6) 700
        ∷ [])
        ≡ span (date 2024 2 20) (Some (date 2024 2 22)) None false ∷ [] }
{}

/// A leak of any kind between the attempt and the reading needs another attempt; a settled leak does not.
pub fn a_leak_between_attempt_and_reading()
    ensures of_a_drip { spans_of Pump (reads_by 2000 (date 2024 2 20) 2100 ∷ attempts (date 2024 2 22) ∷ designates (date 2024 2 23)
        ∷ reads_by 2000 (date 2024 3 6) 20 ∷ [])
        ≡ span (date 2024 2 20) (Some (date 2024 2 22)) None false ∷ [] }
    ensures two_sorts { spans_of Pump (designates (date 2024 2 20) ∷ attempts (date 2024 2 22) ∷ reads_by 2000 (date 2024 2 23) 2100
        ∷ dry (date 2024 3 6) ∷ retires (date 2024 3 9) ∷ [])
        ≡ span (date 2024 2 20) (Some (date 2024 2 22)) (Some (key (date 2024 3 9) 600)) true ∷ [] }
    ensures first_leak { is_settled Valve (reads (date 2024 2 20) 620) (attempts (date 2024 2 22) ∷ reads (date 2024 2 23) 700
        ∷ reads (date 2024 3 6) 20 ∷ []) ≡ false }
    ensures no_leak { is_settled Valve (reads (date 2024 2 20) 620) (attempts (date 2024 2 22) ∷ reads_in_vain (date 2024 2 23) 700
        ∷ dry (date 2024 2 23)
        ∷ event (date 2024 2 23) (Look true true false) ∷ sensor_silent (date 2024 2 23) ∷ releases (date 2024 2 24)
        ∷ shows_evidence (date 2024 2 24) true
        ∷ shows_evidence (date 2024 2 24) false ∷ delays (date 2024 2 24) 1 (date 2024 6 10) ∷ drips (date 2024 2 24)
        ∷ counts_above (date 2024 2 24) 700 ∷ reads (date 2024 3 6) 20 ∷ []) ≡ true }
    ensures drip_between { is_settled Pump (reads_by 2000 (date 2024 2 20) 2100) (attempts (date 2024 2 22) ∷ designates (date 2024 2 23)
        ∷ reads_by 2000 (date 2024 3 6) 20 ∷ []) ≡ false }
    ensures follow_up_between { is_settled Valve (reads (date 2024 2 20) 620) (attempts (date 2024 2 22) ∷ leaks_in_a_follow_up (date 2024 2 23)
        ∷ reads (date 2024 3 6) 20 ∷ []) ≡ false }
    ensures complete { is_settled Valve (reads (date 2024 2 20) 620) (attempts (date 2024 2 22) ∷ completes (date 2024 2 23)
        ∷ reads (date 2024 3 6) 20 ∷ []) ≡ true }
{}

/// A dry inspection settles only drips, and no other inspection settles drips.
pub fn which_inspections_settle()
    ensures drips_again { spans_of Pump (designates (date 2024 3 4) ∷ attempts (date 2024 3 6) ∷ drips (date 2024 3 11) ∷ [])
        ≡ span (date 2024 3 4) (Some (date 2024 3 6)) None false ∷ [] }
    ensures dripping_reading { is_settled Pump (reads_by 2000 (date 2024 3 4) 2100) (attempts (date 2024 3 6) ∷ dry (date 2024 3 11) ∷ []) ≡ false }
    ensures sensor { is_settled Compressor (sensor_leak (date 2024 3 4)) (attempts (date 2024 3 6) ∷ dry (date 2024 3 11) ∷ []) ≡ false }
    ensures leak_that_is_dry { is_settled Pump (event (date 2024 3 4) (Look false false true)) (attempts (date 2024 3 6) ∷ dry (date 2024 3 11) ∷ [])
        ≡ true }
{}

/// A complete attempt settles a sensor's leak, but no reading or drip.
pub fn a_complete_attempt_settles_sensor_leaks_alone()
    ensures reading { spans_of Valve (reads (date 2024 2 20) 620 ∷ completes (date 2024 2 22) ∷ [])
        ≡ span (date 2024 2 20) (Some (date 2024 2 22)) None false ∷ [] }
    ensures drip { spans_of Pump (designates (date 2024 2 20) ∷ completes (date 2024 2 22) ∷ [])
        ≡ span (date 2024 2 20) (Some (date 2024 2 22)) None false ∷ [] }
{}

/// Two readings in a row settle only delayed leaks of valves and pumps.
pub fn two_readings_settle_for_valves_and_pumps()
    ensures pump { is_settled Pump (designates (date 2024 2 20)) (delays (date 2024 3 1) 1 (date 2024 6 10) ∷ reads (date 2024 3 10) 20
        ∷ reads (date 2024 4 10) 20 ∷ []) ≡ true }
    ensures compressor { is_settled Compressor (sensor_leak (date 2024 2 20)) (delays (date 2024 3 1) 1 (date 2024 6 10) ∷ reads (date 2024 3 10) 20
        ∷ reads (date 2024 4 10) 20 ∷ []) ≡ false }
    ensures relief_device { is_settled Relief (reads (date 2024 2 20) 620) (delays (date 2024 3 1) 1 (date 2024 6 10) ∷ reads (date 2024 3 10) 20
        ∷ reads (date 2024 4 10) 20 ∷ []) ≡ false }
{}

/// Two readings settle a leak only under a delay of ground (a), (c), (d) or (e), entered by the fifteenth day.
pub fn which_delays_let_two_readings_settle()
    ensures purge { is_settled Valve (reads (date 2024 2 20) 620) (delays (date 2024 3 1) 3 (date 2024 6 10) ∷ reads (date 2024 3 10) 20
        ∷ reads (date 2024 4 10) 20 ∷ []) ≡ true }
    ensures seal { is_settled Pump (reads (date 2024 2 20) 620) (delays (date 2024 3 1) 4 (date 2024 6 10) ∷ reads (date 2024 3 10) 20
        ∷ reads (date 2024 4 10) 20 ∷ []) ≡ true }
    ensures stock { is_settled Valve (reads (date 2024 2 20) 620) (delays (date 2024 3 1) 5 (date 2024 6 10) ∷ reads (date 2024 3 10) 20
        ∷ reads (date 2024 4 10) 20 ∷ []) ≡ true }
    ensures withdrawn { is_settled Valve (reads (date 2024 2 20) 620) (delays (date 2024 3 1) 0 (date 2024 6 10) ∷ reads (date 2024 3 10) 20
        ∷ reads (date 2024 4 10) 20 ∷ []) ≡ false }
    ensures isolated { is_settled Valve (reads (date 2024 2 20) 620) (delays (date 2024 3 1) 2 (date 2024 6 10) ∷ reads (date 2024 3 10) 20
        ∷ reads (date 2024 4 10) 20 ∷ []) ≡ false }
    ensures fifteenth_day { is_settled Valve (reads (date 2024 2 20) 620) (delays (date 2024 3 6) 1 (date 2024 6 10) ∷ reads (date 2024 3 10) 20
        ∷ reads (date 2024 4 10) 20 ∷ []) ≡ true }
    ensures release { is_settled Valve (reads (date 2024 2 20) 620) (releases (date 2024 3 1) ∷ reads (date 2024 3 10) 20 ∷ reads (date 2024 4 10) 20
        ∷ []) ≡ false }
{}

/// Both readings count and are below the leak definition, of any purpose, and no leak is between them.
pub fn which_two_readings_settle()
    ensures follow_ups { is_settled Valve (reads (date 2024 2 20) 620) (delays (date 2024 3 1) 1 (date 2024 6 10) ∷ follows_up (date 2024 3 10) 20 0
        ∷ follows_up (date 2024 4 10) 20 0 ∷ []) ≡ true }
    ensures over_background { is_settled Valve (reads (date 2024 2 20) 620) (delays (date 2024 3 1) 1 (date 2024 6 10) ∷ far_below (date 2024 3 10)
        ∷ far_below (date 2024 4 10) ∷ []) ≡ true }
    ensures first_in_vain { is_settled Valve (reads (date 2024 2 20) 620) (delays (date 2024 3 1) 1 (date 2024 6 10)
        ∷ reads_in_vain (date 2024 3 10) 20 ∷ reads (date 2024 4 10) 20 ∷ []) ≡ false }
    ensures first_at_the_limit { is_settled Valve (reads (date 2024 2 20) 620) (delays (date 2024 3 1) 1 (date 2024 6 10)
        ∷ counts_above (date 2024 3 10) 500 ∷ reads (date 2024 4 10) 20 ∷ []) ≡ false }
    ensures first_an_attempt { is_settled Pump (reads (date 2024 2 20) 620) (delays (date 2024 3 1) 1 (date 2024 6 10) ∷ dry (date 2024 3 10)
        ∷ reads (date 2024 4 10) 20 ∷ []) ≡ false }
    ensures second_in_vain { is_settled Valve (reads (date 2024 2 20) 620) (delays (date 2024 3 1) 1 (date 2024 6 10) ∷ reads (date 2024 3 10) 20
        ∷ reads_in_vain (date 2024 4 10) 20 ∷ []) ≡ false }
    ensures second_at_the_limit { is_settled Valve (reads (date 2024 2 20) 620) (delays (date 2024 3 1) 1 (date 2024 6 10)
        ∷ reads (date 2024 3 10) 20 ∷ counts_above (date 2024 4 10) 500 ∷ []) ≡ false }
    ensures second_a_look { is_settled Pump (reads (date 2024 2 20) 620) (delays (date 2024 3 1) 1 (date 2024 6 10) ∷ reads (date 2024 3 10) 20
        ∷ dry (date 2024 4 10) ∷ []) ≡ false }
    ensures leak_between { is_settled Valve (reads (date 2024 2 20) 620) (delays (date 2024 3 1) 1 (date 2024 6 10) ∷ reads (date 2024 3 10) 20
        ∷ reads (date 2024 3 20) 700 ∷ reads (date 2024 4 10) 20 ∷ []) ≡ false }
    ensures drip_between { is_settled Pump (reads (date 2024 2 20) 620) (delays (date 2024 3 1) 1 (date 2024 6 10) ∷ reads (date 2024 3 10) 20
        ∷ designates (date 2024 3 20) ∷ reads (date 2024 4 10) 20 ∷ []) ≡ false }
    ensures no_leak_between { is_settled Pump (reads (date 2024 2 20) 620) (delays (date 2024 3 1) 1 (date 2024 6 10) ∷ reads (date 2024 3 10) 20
        ∷ reads_in_vain (date 2024 3 20) 700 ∷ dry (date 2024 3 20)
        ∷ event (date 2024 3 20) (Look true true false) ∷ sensor_silent (date 2024 3 20) ∷ releases (date 2024 3 21)
        ∷ shows_evidence (date 2024 3 21) true ∷ shows_evidence (date 2024 3 21) false
        ∷ delays (date 2024 3 21) 2 (date 2024 6 10) ∷ drips (date 2024 3 21) ∷ counts_above (date 2024 3 22) 700
        ∷ delays (date 2024 3 22) 1 (date 2024 6 10) ∷ reads (date 2024 4 10) 20 ∷ []) ≡ true }
{}

/// The first tag of a pump is closed by a dry inspection, although the leak after it remains.
pub fn a_tag_closes_whatever_comes_after()
    ensures { spans_of Pump (designates (date 2024 3 4) ∷ attempts (date 2024 3 6) ∷ dry (date 2024 3 11) ∷ reads_by 2000 (date 2024 3 20) 2100 ∷ [])
        ≡ span (date 2024 3 4) (Some (date 2024 3 6)) (Some (key (date 2024 3 11) 600)) true ∷ span (date 2024 3 20) None None false ∷ [] }
{}

/// The month of a leak is not clean, even if it ends with a reading below the leak definition.
pub fn the_month_of_the_leak_is_not_clean()
    ensures { spans_of Valve (reads (date 2024 2 20) 620 ∷ attempts (date 2024 2 22) ∷ reads (date 2024 2 25) 20 ∷ reads (date 2024 3 10) 20 ∷ [])
        ≡ span (date 2024 2 20) (Some (date 2024 2 22)) (Some (key (date 2024 2 25) 600)) false ∷ [] }
{}

/// A clean month has a routine reading below the leak definition, and no leak of any purpose or kind.
pub fn which_months_are_clean()
    ensures clean { is_clean (reads (date 2024 3 6) 20 ∷ []) (month 2024 3) ≡ true }
    ensures follow_up { is_clean (follows_up (date 2024 3 6) 20 0 ∷ []) (month 2024 3) ≡ false }
    ensures no_reading { is_clean (attempts (date 2024 3 6) ∷ dry (date 2024 3 6) ∷ []) (month 2024 3) ≡ false }
    ensures in_vain { is_clean (reads_in_vain (date 2024 3 6) 20 ∷ []) (month 2024 3) ≡ false }
    ensures at_the_limit { is_clean (counts_above (date 2024 3 6) 20 ∷ []) (month 2024 3) ≡ false }
    ensures far_below { is_clean (far_below (date 2024 3 6) ∷ []) (month 2024 3) ≡ true }
    ensures leak_of_a_follow_up { is_clean (reads (date 2024 3 6) 20 ∷ leaks_in_a_follow_up (date 2024 3 20) ∷ []) (month 2024 3) ≡ false }
    ensures first_of_two { is_clean_twice (reads (date 2024 4 6) 20 ∷ []) (month 2024 3) ≡ false }
    ensures both { is_clean_twice (reads (date 2024 3 6) 20 ∷ reads (date 2024 4 6) 20 ∷ []) (month 2024 3) ≡ true }
{}

/// A second tag has its own closing, and its clean months are counted from there.
pub fn a_second_tag_has_its_own_clean_months()
    ensures { spans_of Valve (reads (date 2024 2 20) 620 ∷ attempts (date 2024 2 22) ∷ reads (date 2024 3 6) 20 ∷ reads (date 2024 4 2) 20
        ∷ reads (date 2024 5 10) 700 ∷ attempts (date 2024 5 12) ∷ reads (date 2024 5 20) 20 ∷ [])
        ≡ span (date 2024 2 20) (Some (date 2024 2 22)) (Some (key (date 2024 3 6) 600)) true
        ∷ span (date 2024 5 10) (Some (date 2024 5 12)) (Some (key (date 2024 5 20) 600)) false ∷ [] }
{}
