//! Leaks, and the tags that they open and close.
#![tactic(auto, unfolding(ldar_days::specs::Calendar::first_day, ldar_days::specs::Calendar::month_of, ldar_days::specs::Calendar::month_length, crate::specs::Events::events_in, crate::specs::Spans::spans_of, crate::specs::Months::is_clean, crate::specs::Months::has_leak_in, crate::specs::Months::is_clean_twice_from))]

ghost use Rattle.std.specs.Prelude.{◌≡◌, [], ◌∷◌, Some, None, true, false};
ghost use Rattle.fact_kinds.specs.declared.class.Designation.TheVariants.{Plain, Nde};
ghost use Rattle.fact_kinds.specs.declared.class.Kind.TheVariants.{Valve, Pump, Compressor, Relief};
ghost use Rattle.fact_kinds.specs.declared.class.Service.TheVariants.{Gas, Heavy, Vacuum};
ghost use Rattle.ldar_law.specs.Short.{date, key, class, gear, valve, pump, compressor, monomer_pump, found_at, sensed, designated_at};
ghost use Rattle.ldar_law.specs.ShortEvents.{reads, reads_by, dry, designates, attempts, completes, delays, sensor_leak, retires, span};
ghost use Rattle.ldar_law.specs.Spans.{spans_of};

/// A reading at the leak definition is a leak, and one below it is not (40 CFR 60.482-2a(b)(1), 60.482-7a(b), 60.482-8a(b)).
pub fn a_reading_at_the_limit_is_a_leak()
    ensures valve_below { found_at (valve 1 (date 2020 1 15)) 499 ≡ false ∷ [] }
    ensures valve_at { found_at (valve 1 (date 2020 1 15)) 500 ≡ true ∷ [] }
    ensures pump_below { found_at (pump 5 (date 2020 1 15)) 1999 ≡ false ∷ [] }
    ensures pump_at { found_at (pump 5 (date 2020 1 15)) 2000 ≡ true ∷ [] }
    ensures monomer_below { found_at (monomer_pump 6 (date 2020 1 15)) 4999 ≡ false ∷ [] }
    ensures monomer_at { found_at (monomer_pump 6 (date 2020 1 15)) 5000 ≡ true ∷ [] }
    ensures heavy_below { found_at (gear 7 Pump (class Heavy Plain) (date 2020 1 15)) 9999 ≡ false ∷ [] }
    ensures heavy_at { found_at (gear 7 Pump (class Heavy Plain) (date 2020 1 15)) 10_000 ≡ true ∷ [] }
{}

/// A compressor's reading is never a leak, nor is a reading of a component with no detectable emissions or in vacuum
/// service.
pub fn some_readings_are_never_leaks()
    ensures compressor { found_at (compressor 9 (date 2020 1 15)) 700 ≡ false ∷ [] }
    ensures relief { found_at (gear 8 Relief (class Gas Plain) (date 2020 1 15)) 700 ≡ false ∷ [] }
    ensures nde { found_at (gear 1 Valve (class Gas Nde) (date 2020 1 15)) 700 ≡ false ∷ [] }
    ensures vacuum { found_at (gear 1 Valve (class Vacuum Plain) (date 2020 1 15)) 700 ≡ false ∷ [] }
    ensures not_yet { found_at (valve 1 (date 2024 2 21)) 700 ≡ false ∷ [] }
{}

/// A compressor's sensor and a pump's designated drips are leaks (40 CFR 60.482-2a(b)(2)(ii), 60.482-3a(f)).
pub fn a_sensor_and_a_designated_drip_are_leaks()
    ensures sensor { sensed (compressor 9 (date 2020 1 15)) true ≡ true ∷ [] }
    ensures gone { sensed (compressor 9 (date 2020 1 15)) false ≡ false ∷ [] }
    ensures nde { sensed (gear 9 Compressor (class Gas Nde) (date 2020 1 15)) true ≡ false ∷ [] }
    ensures drip { designated_at (pump 5 (date 2020 1 15)) ≡ true ∷ [] }
    ensures heavy { designated_at (gear 7 Pump (class Heavy Plain) (date 2020 1 15)) ≡ false ∷ [] }
{}

/// A reading below the leak definition settles nothing without an attempt; after one it closes the tag (40 CFR
/// 60.481a).
pub fn a_tag_closes_by_a_reading_after_an_attempt()
    ensures without { spans_of Valve (reads (date 2024 2 20) 620 ∷ reads (date 2024 3 6) 20 ∷ [])
        ≡ span (date 2024 2 20) None None false ∷ [] }
    ensures with_one { spans_of Valve (reads (date 2024 2 20) 620 ∷ attempts (date 2024 2 22)
        ∷ reads (date 2024 3 6) 20 ∷ [])
        ≡ span (date 2024 2 20) (Some (date 2024 2 22)) (Some (key (date 2024 3 6) 600)) false ∷ [] }
    ensures at_the_limit { spans_of Valve (reads (date 2024 2 20) 620 ∷ attempts (date 2024 2 22)
        ∷ reads (date 2024 3 6) 500 ∷ []) ≡ span (date 2024 2 20) (Some (date 2024 2 22)) None false ∷ [] }
{}

/// A leak after the attempt needs another attempt.
pub fn a_leak_after_the_attempt_keeps_the_tag()
    ensures broken { spans_of Valve (reads (date 2024 2 20) 620 ∷ attempts (date 2024 2 22) ∷ reads (date 2024 2 23) 700
        ∷ reads (date 2024 3 6) 20 ∷ []) ≡ span (date 2024 2 20) (Some (date 2024 2 22)) None false ∷ [] }
    ensures again { spans_of Valve (reads (date 2024 2 20) 620 ∷ attempts (date 2024 2 22) ∷ reads (date 2024 2 23) 700
        ∷ attempts (date 2024 2 24) ∷ reads (date 2024 3 6) 20 ∷ [])
        ≡ span (date 2024 2 20) (Some (date 2024 2 22)) (Some (key (date 2024 3 6) 600)) false ∷ [] }
{}

/// A leak while a tag is open opens no other tag; the next leak after the closing does.
pub fn a_tag_stands_for_each_leak_until_it_closes()
    ensures { spans_of Valve (reads (date 2024 2 20) 620 ∷ reads (date 2024 2 21) 700 ∷ attempts (date 2024 2 22)
        ∷ reads (date 2024 3 6) 20 ∷ reads (date 2024 4 10) 900 ∷ [])
        ≡ span (date 2024 2 20) (Some (date 2024 2 22)) (Some (key (date 2024 3 6) 600)) false
        ∷ span (date 2024 4 10) None None false ∷ [] }
{}

/// A designated drip is settled by a dry visual inspection after an attempt, or by a reading (40 CFR 60.482-2a(b)(2)(ii)).
pub fn a_drip_is_settled_by_a_dry_look_after_an_attempt()
    ensures dry_look { spans_of Pump (designates (date 2024 3 4) ∷ attempts (date 2024 3 6) ∷ dry (date 2024 3 11) ∷ [])
        ≡ span (date 2024 3 4) (Some (date 2024 3 6)) (Some (key (date 2024 3 11) 600)) true ∷ [] }
    ensures no_attempt { spans_of Pump (designates (date 2024 3 4) ∷ dry (date 2024 3 11) ∷ [])
        ≡ span (date 2024 3 4) None None false ∷ [] }
    ensures reading { spans_of Pump (designates (date 2024 3 4) ∷ attempts (date 2024 3 6)
        ∷ reads_by 2000 (date 2024 3 11) 1999 ∷ [])
        ≡ span (date 2024 3 4) (Some (date 2024 3 6)) (Some (key (date 2024 3 11) 600)) true ∷ [] }
    // A dry inspection does not settle a reading.
    ensures no_reading { spans_of Pump (reads_by 2000 (date 2024 3 4) 2000 ∷ attempts (date 2024 3 6)
        ∷ dry (date 2024 3 11) ∷ []) ≡ span (date 2024 3 4) (Some (date 2024 3 6)) None false ∷ [] }
{}

/// A sensor's leak is settled only by a complete attempt.
pub fn a_sensor_leak_is_settled_by_a_complete_attempt()
    ensures complete { spans_of Compressor (sensor_leak (date 2024 3 4) ∷ completes (date 2024 3 6) ∷ [])
        ≡ span (date 2024 3 4) (Some (date 2024 3 6)) (Some (key (date 2024 3 6) 600)) true ∷ [] }
    ensures attempt { spans_of Compressor (sensor_leak (date 2024 3 4) ∷ attempts (date 2024 3 6)
        ∷ reads (date 2024 3 7) 20 ∷ []) ≡ span (date 2024 3 4) (Some (date 2024 3 6)) None false ∷ [] }
{}

/// During a delay, two readings below the leak definition in consecutive months settle a leak without an attempt (40
/// CFR 60.482-9a(f)).
pub fn two_readings_settle_a_delayed_leak()
    ensures two_months { spans_of Valve (reads (date 2024 2 20) 620 ∷ delays (date 2024 3 1) 1 (date 2024 6 10)
        ∷ reads (date 2024 3 10) 20 ∷ reads (date 2024 4 10) 20 ∷ [])
        ≡ span (date 2024 2 20) None (Some (key (date 2024 4 10) 600)) false ∷ [] }
    // The first of the two may be before the delay.
    ensures before { spans_of Valve (reads (date 2024 2 20) 620 ∷ reads (date 2024 2 28) 20
        ∷ delays (date 2024 3 1) 1 (date 2024 6 10) ∷ reads (date 2024 3 10) 20 ∷ [])
        ≡ span (date 2024 2 20) None (Some (key (date 2024 3 10) 600)) false ∷ [] }
    ensures one_month { spans_of Valve (reads (date 2024 2 20) 620 ∷ delays (date 2024 3 1) 1 (date 2024 6 10)
        ∷ reads (date 2024 3 10) 20 ∷ reads (date 2024 3 20) 20 ∷ []) ≡ span (date 2024 2 20) None None false ∷ [] }
    ensures gap { spans_of Valve (reads (date 2024 2 20) 620 ∷ delays (date 2024 3 1) 1 (date 2024 6 10)
        ∷ reads (date 2024 3 10) 20 ∷ reads (date 2024 5 10) 20 ∷ []) ≡ span (date 2024 2 20) None None false ∷ [] }
    // Ground (b), a delay on the sixteenth day, and no delay at all are not enough.
    ensures isolated { spans_of Valve (reads (date 2024 2 20) 620 ∷ delays (date 2024 3 1) 2 (date 2024 6 10)
        ∷ reads (date 2024 3 10) 20 ∷ reads (date 2024 4 10) 20 ∷ []) ≡ span (date 2024 2 20) None None false ∷ [] }
    ensures late { spans_of Valve (reads (date 2024 2 20) 620 ∷ delays (date 2024 3 7) 1 (date 2024 6 10)
        ∷ reads (date 2024 3 10) 20 ∷ reads (date 2024 4 10) 20 ∷ []) ≡ span (date 2024 2 20) None None false ∷ [] }
    ensures none { spans_of Valve (reads (date 2024 2 20) 620 ∷ reads (date 2024 3 10) 20 ∷ reads (date 2024 4 10) 20 ∷ [])
        ≡ span (date 2024 2 20) None None false ∷ [] }
{}

/// Going out of service settles every leak (our own rule).
pub fn retiring_settles_a_leak()
    ensures { spans_of Pump (designates (date 2024 3 4) ∷ retires (date 2024 3 20) ∷ [])
        ≡ span (date 2024 3 4) None (Some (key (date 2024 3 20) 600)) true ∷ [] }
{}

/// The identification of a valve may be removed after two clean months in a row, the first of them the month of the closing
/// or later (40 CFR 60.486a(b)(2)).
pub fn a_valve_is_removable_after_two_clean_months()
    ensures removable { spans_of Valve (reads (date 2024 2 20) 620 ∷ attempts (date 2024 2 22) ∷ reads (date 2024 3 6) 20
        ∷ reads (date 2024 4 2) 20 ∷ [])
        ≡ span (date 2024 2 20) (Some (date 2024 2 22)) (Some (key (date 2024 3 6) 600)) true ∷ [] }
    // A month between the two, or a leak in the second one, prevents it.
    ensures gap { spans_of Valve (reads (date 2024 2 20) 620 ∷ attempts (date 2024 2 22) ∷ reads (date 2024 3 6) 20
        ∷ reads (date 2024 5 2) 20 ∷ [])
        ≡ span (date 2024 2 20) (Some (date 2024 2 22)) (Some (key (date 2024 3 6) 600)) false ∷ [] }
    ensures leak { spans_of Valve (reads (date 2024 2 20) 620 ∷ attempts (date 2024 2 22) ∷ reads (date 2024 3 6) 20
        ∷ reads (date 2024 4 2) 20 ∷ reads (date 2024 4 20) 700 ∷ [])
        ≡ span (date 2024 2 20) (Some (date 2024 2 22)) (Some (key (date 2024 3 6) 600)) false
        ∷ span (date 2024 4 20) None None false ∷ [] }
    // Two later months are enough.
    ensures later { spans_of Valve (reads (date 2024 2 20) 620 ∷ attempts (date 2024 2 22) ∷ reads (date 2024 3 6) 20
        ∷ reads (date 2024 6 2) 20 ∷ reads (date 2024 7 2) 20 ∷ [])
        ≡ span (date 2024 2 20) (Some (date 2024 2 22)) (Some (key (date 2024 3 6) 600)) true ∷ [] }
{}

/// An attempt after the closing is the tag's first attempt if there was none before.
pub fn the_first_attempt_may_be_after_the_closing()
    ensures { spans_of Valve (reads (date 2024 2 20) 620 ∷ delays (date 2024 3 1) 1 (date 2024 6 10)
        ∷ reads (date 2024 3 10) 20 ∷ reads (date 2024 4 10) 20 ∷ attempts (date 2024 4 12) ∷ [])
        ≡ span (date 2024 2 20) (Some (date 2024 4 12)) (Some (key (date 2024 4 10) 600)) false ∷ [] }
{}
