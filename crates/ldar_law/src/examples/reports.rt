//! Worked examples of reports: the contracts of empty functions, each clause proved by computing.
#![tactic(auto, unfolding(ldar_days::specs::Calendar::first_day, ldar_days::specs::Calendar::month_of, ldar_days::specs::Calendar::month_length, ldar_days::specs::Quarters::first_quarter, ldar_days::specs::Quarters::last_whole, list_words::specs::Ranges::until, crate::specs::Reports::month_cells, crate::specs::Reports::delay_of, crate::specs::Reports::amended_at))]

ghost use Rattle.std.specs.Prelude.{◌≡◌, None, Some, [], false, replicate, true, ◌*◌, ◌++◌, ◌+◌, ◌∷◌};
ghost use Rattle.fact_kinds.specs.declared.class.Kind.TheVariants.{Compressor, Pump, Relief, Valve};
ghost use Rattle.ldar_law.specs.declared.delay.Until.TheVariants.{Date, Shutdown};
ghost use Rattle.ldar_law.specs.Reports.{amended, cells_of, delay_of, half_first, half_last, half_month};
ghost use Rattle.ldar_law.specs.Reports.{has_half_begun, has_quarter_begun, is_stop_in, month_cells};
ghost use Rattle.ldar_law.specs.Short.{date};
ghost use Rattle.ldar_law.specs.SmallReport.{delayed, delayed_line, filed_months, repaired_late, sheet_of, two_stops, with_closing};
ghost use Rattle.ldar_law.specs.Tags.{delay_lines, is_late};

/// Half 8 of a unit that started up on 2020-01-15 is October 2023 to March 2024.
pub fn months_of_a_half()
    ensures months { half_month (date 2020 1 15) 8 ≡ 12 * 2023 + 9 }
    ensures first { half_first (date 2020 1 15) 8 ≡ date 2023 10 1 }
    ensures last { half_last (date 2020 1 15) 8 ≡ date 2024 3 31 }
    ensures begun { has_half_begun (date 2020 1 15) 8 (date 2023 10 1) ≡ true }
    ensures not_begun { has_half_begun (date 2020 1 15) 8 (date 2023 9 30) ≡ false }
    ensures none { has_half_begun (date 2020 1 15) 0 (date 2023 10 1) ≡ false }
{}

/// A half that would begin after 2099-12-31 never begins; its first day is given as that day.
pub fn half_past_the_calendar()
    ensures last_half { has_half_begun (date 2097 12 31) 4 (date 2099 12 31) ≡ true }
    ensures next_half { has_half_begun (date 2097 12 31) 5 (date 2099 12 31) ≡ false }
    ensures first_day { half_first (date 2097 12 31) 5 ≡ date 2099 12 31 }
{}

/// A tag due on 2024-03-06 is late if it was closed on the day after, or is open on that day.
pub fn late_tags()
    ensures closed_in_time { is_late (date 2024 3 31) (with_closing (Some (date 2024 3 6))) ≡ false }
    ensures closed_late { is_late (date 2024 3 31) (with_closing (Some (date 2024 3 7))) ≡ true }
    ensures open_on_its_due_day { is_late (date 2024 3 6) (with_closing None) ≡ false }
    ensures open_after { is_late (date 2024 3 7) (with_closing None) ≡ true }
    ensures no_date { is_late (date 2024 12 31) (delayed 1 Shutdown None) ≡ false }
{}

/// A leak in February with a tag that was due in March and closed late: one count in each month.
pub fn leak_and_late_tag()
    ensures february { month_cells (date 2024 3 31) (sheet_of 1 Valve repaired_late ∷ sheet_of 8 Relief repaired_late ∷ []) (12 * 2024 + 1)
        ≡ 1 ∷ 0 ∷ 0 ∷ 0 ∷ 0 ∷ 0 ∷ [] }
    ensures march { month_cells (date 2024 3 31) (sheet_of 1 Valve repaired_late ∷ sheet_of 8 Relief repaired_late ∷ []) (12 * 2024 + 2)
        ≡ 0 ∷ 1 ∷ 0 ∷ 0 ∷ 0 ∷ 0 ∷ [] }
    ensures of_a_pump { month_cells (date 2024 3 31) (sheet_of 5 Pump repaired_late ∷ []) (12 * 2024 + 2)
        ≡ 0 ∷ 0 ∷ 0 ∷ 1 ∷ 0 ∷ 0 ∷ [] }
{}

/// The counts of months after December 2099 are zero.
pub fn months_past_the_calendar()
    ensures { cells_of (date 2097 12 31) 4 (date 2099 12 31) (sheet_of 1 Valve repaired_late ∷ []) []
        ≡ record { months = replicate 36 0; delays = []; stops = [] } }
{}

/// The line of a delayed tag in half 8, and cases without a line.
pub fn delays_of_a_half()
    ensures line { delay_of (date 2023 10 1) (date 2024 3 31) (delayed 1 Shutdown None) ≡ Some (delayed_line 1 Shutdown None) }
    ensures detected_later { delay_of (date 2023 4 1) (date 2023 9 30) (delayed 1 Shutdown None) ≡ None }
    ensures closed_earlier { delay_of (date 2024 10 1) (date 2025 3 31) (delayed 1 (Date (date 2024 6 30)) (Some (date 2024 9 30))) ≡ None }
    ensures not_delayed { delay_of (date 2023 10 1) (date 2024 3 31) repaired_late ≡ None }
{}

/// A withdrawn delay has a line in the report, but is not on the list of delays.
pub fn withdrawn_delay()
    ensures reported { delay_of (date 2023 10 1) (date 2024 3 31) (delayed 0 (Date (date 2024 3 6)) None)
        ≡ Some (delayed_line 0 (Date (date 2024 3 6)) None) }
    ensures not_listed { delay_lines ((delayed 0 (Date (date 2024 3 6)) None) ∷ []) ≡ [] }
    ensures while_it_holds { delay_lines (delayed 1 Shutdown None ∷ []) ≡ delayed_line 1 Shutdown None ∷ [] }
    ensures closed { delay_lines ((delayed 1 (Date (date 2024 6 30)) (Some (date 2024 6 10))) ∷ []) ≡ [] }
{}

/// Shutdowns with a day in half 8.
pub fn shutdowns_of_a_half()
    ensures last_day { is_stop_in (date 2023 10 1) (date 2024 3 31) (record { first = date 2023 9 20; last = date 2023 10 1 }) ≡ true }
    ensures before { is_stop_in (date 2023 10 1) (date 2024 3 31) (record { first = date 2023 9 20; last = date 2023 9 30 }) ≡ false }
    ensures first_day { is_stop_in (date 2023 10 1) (date 2024 3 31) (record { first = date 2024 3 31; last = date 2024 4 13 }) ≡ true }
{}

/// A late valve of the sixth month that turns out to have been repaired in time: one number is amended.
pub fn amended_number()
    ensures one { amended (record { months = filed_months 1 1; delays = []; stops = [] })
        (record { months = filed_months 1 0; delays = []; stops = [] })
        ≡ record { month = 6; column = 2; old = 1; new = 0 } ∷ [] }
    ensures none { amended (record { months = filed_months 1 1; delays = []; stops = [] })
        (record { months = filed_months 1 1; delays = []; stops = [] })
        ≡ [] }
{}

/// A compressor's leak and late tag are in the last two columns, a pump's leak in the third.
pub fn columns_of_compressors_and_pumps()
    ensures compressor { month_cells (date 2024 3 31) (sheet_of 9 Compressor repaired_late ∷ []) (12 * 2024 + 1) ≡ 0 ∷ 0 ∷ 0 ∷ 0 ∷ 1 ∷ 0 ∷ [] }
    ensures late { month_cells (date 2024 3 31) (sheet_of 9 Compressor repaired_late ∷ []) (12 * 2024 + 2) ≡ 0 ∷ 0 ∷ 0 ∷ 0 ∷ 0 ∷ 1 ∷ [] }
    ensures pump { month_cells (date 2024 3 31) (sheet_of 5 Pump repaired_late ∷ []) (12 * 2024 + 1) ≡ 0 ∷ 0 ∷ 1 ∷ 0 ∷ 0 ∷ 0 ∷ [] }
{}

/// Delays that were detected on the last day of a half, or closed on its first day, are in its report.
pub fn delays_at_the_ends_of_a_half()
    ensures detected_on_the_last_day { delay_of (date 2023 8 21) (date 2024 2 20) (delayed 1 Shutdown None) ≡ Some (delayed_line 1 Shutdown None) }
    ensures closed_on_the_first_day { delay_of (date 2024 10 1) (date 2025 3 31) (delayed 1 (Date (date 2024 6 30)) (Some (date 2024 10 1)))
        ≡ Some (delayed_line 1 (Date (date 2024 6 30)) (Some (date 2024 10 1))) }
{}

/// Quarter 1 and half 1 begin on their first day.
pub fn the_first_quarter_and_half_begin()
    ensures half { has_half_begun (date 2020 1 15) 1 (date 2020 4 1) ≡ true }
    ensures quarter { has_quarter_begun (date 2020 1 15) 1 (date 2020 4 1) ≡ true }
{}

/// A tag that was closed in time, or whose due day has not passed, is late in no month.
pub fn tags_that_are_not_late()
    ensures closed_in_time { month_cells (date 2024 3 31) (sheet_of 1 Valve (with_closing (Some (date 2024 3 6))) ∷ []) (12 * 2024 + 2) ≡ 0 ∷ 0 ∷ 0
        ∷ 0 ∷ 0 ∷ 0 ∷ [] }
    ensures open { month_cells (date 2024 3 6) (sheet_of 1 Valve (with_closing None) ∷ sheet_of 5 Pump (with_closing None)
        ∷ sheet_of 9 Compressor (with_closing None) ∷ []) (12 * 2024 + 2)
        ≡ 0 ∷ 0 ∷ 0 ∷ 0 ∷ 0 ∷ 0 ∷ [] }
    ensures day_after { month_cells (date 2024 3 7) (sheet_of 1 Valve (with_closing None) ∷ sheet_of 5 Pump (with_closing None)
        ∷ sheet_of 9 Compressor (with_closing None) ∷ []) (12 * 2024 + 2)
        ≡ 0 ∷ 1 ∷ 0 ∷ 1 ∷ 0 ∷ 1 ∷ [] }
{}

/// The delays and shutdowns of half 8, of a unit that started up on 2020-01-15.
pub fn lines_of_a_half()
    ensures half_8 { cells_of (date 2020 1 15) 8 (date 2024 3 31) (sheet_of 1 Relief (delayed 1 Shutdown None) ∷ sheet_of 2 Relief repaired_late
        ∷ []) two_stops
        ≡ record {
          months = replicate 36 0;
          delays = delayed_line 1 Shutdown None
              ∷ [];
          stops = record { first = date 2024 2 1; last = date 2024 2 9 } ∷ [];
        } }
    ensures closed_in_half_8 { cells_of (date 2020 1 15) 8 (date 2024 3 31) (sheet_of 1 Relief (delayed 1 (Date (date 2024 3 20))
        (Some (date 2024 3 20))) ∷ []) []
        ≡ record { months = replicate 36 0; delays = delayed_line 1 (Date (date 2024 3 20)) (Some (date 2024 3 20)) ∷ []; stops = [] } }
    ensures half_7 { cells_of (date 2020 1 15) 7 (date 2024 3 31) (sheet_of 1 Relief (delayed 1 Shutdown None) ∷ []) two_stops
        ≡ record { months = replicate 36 0; delays = []; stops = [] } }
    ensures half_9 { cells_of (date 2020 1 15) 9 (date 2024 12 31) (sheet_of 1 Relief (delayed 1 (Date (date 2024 3 20)) (Some (date 2024 3 20)))
        ∷ []) two_stops
        ≡ record { months = replicate 36 0; delays = []; stops = record { first = date 2024 6 1; last = date 2024 6 14 } ∷ [] } }
    ensures shutdown_after { is_stop_in (date 2023 10 1) (date 2024 3 31) (record { first = date 2024 4 1; last = date 2024 4 13 }) ≡ false }
{}

/// The first and the last number of a report are amended like any other, also to a greater number.
pub fn first_and_last_numbers()
    ensures { amended (record { months = replicate 36 1; delays = []; stops = [] }) (record {
      months = 4 ∷ replicate 34 1 ++ 0
          ∷ [];
      delays = [];
      stops = [];
    })
        ≡ record { month = 1; column = 1; old = 1; new = 4 } ∷ record { month = 6; column = 6; old = 1; new = 0 } ∷ [] }
{}
