//! From batches to the state of a unit on a view day.
#![tactic(auto, unfolding(ldar_days::specs::Calendar::first_day, ldar_days::specs::Calendar::month_of, ldar_days::specs::Calendar::month_length, ldar_days::specs::Quarters::last_whole, ldar_days::specs::Quarters::first_quarter, list_words::specs::Ranges::until, crate::specs::Events::events_in, crate::specs::Spans::spans_of, crate::specs::Tags::tag_of, crate::specs::Months::is_clean, crate::specs::Months::has_leak_in, crate::specs::Months::is_quarterly, crate::specs::Months::is_clean_twice_from, crate::specs::Percent::mark_of, crate::specs::Skips::good_streak, crate::specs::Skips::skips_run, crate::specs::Skips::quarters, crate::specs::Skips::is_skipped, crate::specs::Routes::routes_of, crate::specs::Duties::duties_of, crate::specs::Duties::first_monitoring, crate::specs::Duties::monthly, crate::specs::Duties::quarterly, crate::specs::Duties::yearly, crate::specs::Duties::planned, crate::specs::Duties::weekly, crate::specs::Duties::drip, crate::specs::Duties::release, crate::specs::Duties::evidence))]

ghost use Rattle.std.specs.Prelude.{◌≡◌, None, Some, [], false, true, ◌∷◌};
ghost use Rattle.fact_kinds.specs.Facts.{facts_to};
ghost use Rattle.fact_kinds.specs.declared.class.Kind.TheVariants.{Valve};
ghost use Rattle.ldar_law.specs.declared.delay.Until.TheVariants.{Date};
ghost use Rattle.ldar_law.specs.Short.{date, month, valve};
ghost use Rattle.ldar_law.specs.ShortEvents.{reads, retires, tag};
ghost use Rattle.ldar_law.specs.ShortLists.{attempt, calibration, known, owes, precision_of_1, reading, register_of_1, route, tags_on, tally, unit_1};
ghost use Rattle.ldar_law.specs.Shown.{sheet_of};
ghost use Rattle.ldar_law.specs.Units.{duties_of_unit, routes_of_unit, tally_of_unit};

/// A reading opens a tag if the calibration of its day is known, in whatever order the batches arrive.
pub fn a_late_calibration_opens_a_tag()
    ensures before { tags_on (date 2024 2 28) (register_of_1 ∷ precision_of_1 ∷ reading 2 (date 2024 2 20) 1 620 ∷ [])
        ≡ [] }
    ensures after { tags_on (date 2024 2 28) (register_of_1 ∷ precision_of_1 ∷ reading 2 (date 2024 2 20) 1 620
        ∷ calibration 3 (date 2024 2 20) ∷ []) ≡ tag 1 (date 2024 2 20) None (Date (date 2024 3 6)) None None false ∷ [] }
    ensures other_order { tags_on (date 2024 2 28) (calibration 3 (date 2024 2 20) ∷ reading 2 (date 2024 2 20) 1 620
        ∷ precision_of_1 ∷ register_of_1 ∷ []) ≡ tag 1 (date 2024 2 20) None (Date (date 2024 3 6)) None None false ∷ [] }
    // Facts after the view day do not count.
    ensures day_before { tags_on (date 2024 2 19) (register_of_1 ∷ precision_of_1 ∷ reading 2 (date 2024 2 20) 1 620
        ∷ calibration 3 (date 2024 2 20) ∷ []) ≡ [] }
{}

/// A tag from its detection to the second clean month.
pub fn a_tag_from_detection_to_removal()
    ensures closed { tags_on (date 2024 3 31) (register_of_1 ∷ precision_of_1 ∷ reading 2 (date 2024 2 20) 1 620
        ∷ calibration 3 (date 2024 2 20) ∷ attempt 4 (date 2024 2 22) 1 ∷ calibration 5 (date 2024 3 6)
        ∷ reading 6 (date 2024 3 6) 1 20 ∷ [])
        ≡ tag 1 (date 2024 2 20) (Some (date 2024 2 22)) (Date (date 2024 3 6)) (Some (date 2024 3 6)) None false ∷ [] }
    ensures removable { tags_on (date 2024 4 2) (register_of_1 ∷ precision_of_1 ∷ reading 2 (date 2024 2 20) 1 620
        ∷ calibration 3 (date 2024 2 20) ∷ attempt 4 (date 2024 2 22) 1 ∷ calibration 5 (date 2024 3 6)
        ∷ reading 6 (date 2024 3 6) 1 20 ∷ calibration 7 (date 2024 4 2) ∷ reading 8 (date 2024 4 2) 1 20 ∷ [])
        ≡ tag 1 (date 2024 2 20) (Some (date 2024 2 22)) (Date (date 2024 3 6)) (Some (date 2024 3 6)) None true ∷ [] }
{}

/// The duties of a unit, its percent leaking and its routes. Quarter 1 of the unit is April to June 2020.
pub fn duties_and_percent_of_a_unit()
    ensures duties { duties_of_unit unit_1 (date 2020 4 20) (facts_to (date 2020 4 20) (register_of_1 ∷ []))
        ≡ owes 1 2 (date 2020 2 29) ∷ owes 1 2 (date 2020 3 31) ∷ owes 1 2 (date 2020 4 30) ∷ [] }
    ensures routes { routes_of_unit unit_1 (date 2020 4 20) (facts_to (date 2020 4 20) (register_of_1 ∷ [])) 3
        ≡ route (1 ∷ []) ∷ [] }
    ensures percent { tally_of_unit unit_1 (date 2024 3 31) (facts_to (date 2024 3 31) (register_of_1 ∷ precision_of_1
        ∷ reading 2 (date 2024 2 20) 1 620 ∷ calibration 3 (date 2024 2 20) ∷ [])) 16 ≡ tally 1 1 }
    ensures none { tally_of_unit unit_1 (date 2024 3 31) (facts_to (date 2024 3 31) (register_of_1
        ∷ precision_of_1 ∷ [])) 16 ≡ tally 0 0 }
{}

/// The sheet of a component has its number, its kind, and the months of its leaks.
pub fn a_sheet_of_a_component()
    ensures { sheet_of (known (valve 3 (date 2020 1 15)) [] (reads (date 2024 2 20) 20 ∷ reads (date 2024 4 20) 620 ∷ retires (date 2024 4 21) ∷ []))
        ≡ record {
          component = 3;
          kind = Valve;
          leaks = month 2024 4
              ∷ [];
          tags = tag 3 (date 2024 4 20) None (Date (date 2024 5 5)) (Some (date 2024 4 21)) None false ∷ [];
        } }
{}
