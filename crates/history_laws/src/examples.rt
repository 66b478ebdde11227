//! Examples of the laws, and of what their premises are for: the contracts of empty functions.
#![tactic(auto, unfolding(ldar_days::specs::Calendar::first_day, ldar_days::specs::Calendar::month_of, ldar_days::specs::Calendar::month_length, ldar_law::specs::Judged::register_with, ldar_law::specs::Events::events_in, ldar_law::specs::Spans::spans_of, ldar_law::specs::Tags::tag_of, ldar_law::specs::Months::is_clean, ldar_law::specs::Months::has_leak_in, ldar_law::specs::Months::is_clean_twice_from, ldar_law::specs::Months::is_quarterly, ldar_days::specs::Quarters::last_whole, ldar_days::specs::Quarters::first_quarter, list_words::specs::Ranges::until, ldar_law::specs::Duties::duties_of, ldar_law::specs::Duties::first_monitoring, ldar_law::specs::Duties::monthly, ldar_law::specs::Duties::quarterly, ldar_law::specs::Duties::yearly, ldar_law::specs::Duties::planned, ldar_law::specs::Duties::weekly, ldar_law::specs::Duties::drip, ldar_law::specs::Duties::release, ldar_law::specs::Duties::evidence))]

ghost use Rattle.std.specs.Prelude.{◌≡◌, None, Some, [], false, is_none, is_some, length, map, nat_le, take_while, true, ◌++◌, ◌∷◌};
ghost use Rattle.list_words.specs.Order.{put_each};
ghost use Rattle.fact_kinds.specs.Facts.{entries_of, facts_of, facts_to, goes_first};
ghost use Rattle.fact_kinds.specs.Named.{component_of};
ghost use Rattle.fact_kinds.specs.declared.class.Kind.TheVariants.{Valve};
ghost use Rattle.ldar_law.specs.declared.delay.Until.TheVariants.{Date, Shutdown};
ghost use Rattle.ldar_law.specs.declared.fitness.Fitness.TheVariants.{Fit, NoCalibration};
ghost use Rattle.ldar_law.specs.Equipment.{classes_of, members_of, stops_of, unit_entry_of};
ghost use Rattle.ldar_law.specs.Events.{events_in};
ghost use Rattle.ldar_law.specs.Force.{limit_on};
ghost use Rattle.ldar_law.specs.Fitness.{fitness_of};
ghost use Rattle.ldar_law.specs.Short.{date, key, valve};
ghost use Rattle.ldar_law.specs.ShortEvents.{span, stop};
ghost use Rattle.ldar_law.specs.Slices.{facts_of_component};
ghost use Rattle.ldar_law.specs.SmallOffice.{base, leak_found, leaking};
ghost use Rattle.ldar_law.specs.Spans.{spans_of};
ghost use Rattle.ldar_law.specs.Verdicts.{is_ruly, verdict_on};
ghost use Rattle.ldar_law.specs.declared.verdict.Verdict.TheVariants.{Denied};
ghost use Rattle.ldar_law.specs.Force.{class_on};
ghost use Rattle.ldar_law.specs.ShortLists.{duties_on, duties_with, owes};
ghost use Rattle.fact_kinds.specs.declared.class.Service.TheVariants.{Gas, Heavy};
ghost use Rattle.history_laws.specs.DayLaws.{events_to, has_begun, item_on, up_to};
ghost use Rattle.fact_kinds.specs.declared.body.FactBody.TheVariants.{Calibration, Drift, Precision};
ghost use Rattle.ldar_law.specs.Stirred.{is_of_matter};
ghost use Rattle.history_laws.specs.SpanLaws.{detected_by, span_on};
ghost use Rattle.history_laws.specs.Witnesses.{before_its_unit, beginning_of_1, changing_valve, delayed_leak, due_days_of_1, entered_again};
ghost use Rattle.history_laws.specs.Witnesses.{entered_twice, first_of_identity, heavy_from, in_two_units, leak_without_shutdown};
ghost use Rattle.history_laws.specs.Witnesses.{leak_without_tests, leaks_again, leaks_in, leaks_of_1, one_retires_one_begins, out_of_order};
ghost use Rattle.history_laws.specs.Witnesses.{retirement_of_1, second_of_identity, too_late, unit_of_1, valve_1, without_its_unit};

/// If a component was entered twice, its process unit has it twice; the history is not ruly.
pub fn entered_twice_is_twice_a_member()
    ensures unruly { is_ruly entered_twice ≡ false }
    ensures members { members_of 1 (facts_of entered_twice) ≡ 1 ∷ 1 ∷ [] }
    // The members by the facts up to April are not the members that have begun by then.
    ensures up_to_april { members_of 1 (facts_to (date 2024 4 1) entered_twice) ≡ 1 ∷ [] }
{}

/// A component of an unknown process unit, and a startup after 2097: the histories are not ruly.
pub fn unruly_registers()
    ensures no_unit { is_ruly without_its_unit ≡ false }
    ensures not_entered { is_none (unit_entry_of 1 (facts_of without_its_unit)) ≡ true }
    ensures late { is_ruly too_late ≡ false }
    ensures started { is_some (unit_entry_of 1 (facts_of too_late)) ≡ true }
{}

/// In a ruly history, the facts up to a day can have a component whose process unit has not started up by then.
pub fn a_component_before_its_unit()
    ensures ruly { is_ruly before_its_unit ≡ true }
    ensures component { beginning_of_1 (facts_to (date 2024 2 1) before_its_unit) ≡ Some (date 2024 1 15) }
    ensures no_unit { is_none (unit_entry_of 1 (facts_to (date 2024 2 1) before_its_unit)) ≡ true }
{}

/// The register by all facts is not the register by the facts up to a day: one valve retires later, and one begins
/// later.
pub fn the_register_changes_later()
    ensures retired { retirement_of_1 (facts_of one_retires_one_begins) ≡ Some (Some (date 2024 5 1)) }
    ensures not_yet_retired { retirement_of_1 (facts_to (date 2024 4 1) one_retires_one_begins) ≡ Some None }
    ensures members { members_of 1 (facts_of one_retires_one_begins) ≡ 1 ∷ 2 ∷ [] }
    ensures not_yet_begun { members_of 1 (facts_to (date 2024 4 1) one_retires_one_begins) ≡ 1 ∷ [] }
{}

/// If facts are out of order, the first one that enters a component need not have the earliest day.
pub fn the_first_entry_out_of_order()
    ensures by_all { beginning_of_1 out_of_order ≡ Some (date 2024 5 1) }
    ensures up_to_april { beginning_of_1 (up_to (date 2024 4 1) out_of_order) ≡ Some (date 2024 1 15) }
{}

/// The facts that name a component are not enough to judge its readings; without a shutdown its due day is different.
pub fn each_list_is_needed()
    ensures leak { leaks_of_1 delayed_leak ≡ true ∷ false ∷ [] }
    ensures without_tests { leaks_of_1 leak_without_tests ≡ false ∷ [] }
    ensures due { due_days_of_1 delayed_leak ≡ Date (date 2024 6 14) ∷ [] }
    ensures without_shutdown { due_days_of_1 leak_without_shutdown ≡ Shutdown ∷ [] }
{}

/// A reading after the day is not judged the same by the facts up to the day as by all.
pub fn a_reading_after_the_day()
    ensures by_all { fitness_of changing_valve 500 (key (date 2024 5 20) 600) 1 620 ≡ Fit }
    ensures up_to_april { fitness_of (up_to (date 2024 4 1) changing_valve) 500 (key (date 2024 5 20) 600) 1 620 ≡ NoCalibration }
    ensures of_the_day { fitness_of (up_to (date 2024 2 20) changing_valve) 500 (key (date 2024 2 20) 600) 1 620 ≡ Fit }
{}

/// The events up to a day are a prefix of all events, even if the class changes and the valve retires later.
pub fn events_before_a_change()
    ensures by_all { leaks_in (events_in valve_1 (classes_of 1 changing_valve) (limit_on valve_1 (classes_of 1 changing_valve)) changing_valve) ≡ true ∷ false ∷ false ∷ [] }
    ensures up_to_april { leaks_of_1 (up_to (date 2024 4 1) changing_valve) ≡ true ∷ [] }
    ensures front { leaks_in (events_to (date 2024 4 1) (events_in valve_1 (classes_of 1 changing_valve) (limit_on valve_1 (classes_of 1 changing_valve)) changing_valve)) ≡ true ∷ [] }
{}

/// A tag that is removable by the events up to a day, but not by all: a leak makes its second clean month not clean.
pub fn a_tag_removable_for_a_while()
    ensures on_the_day { spans_of Valve (events_to (date 2024 4 2) leaks_again)
        ≡ span (date 2024 2 20) (Some (date 2024 2 22)) (Some (key (date 2024 3 6) 600)) true ∷ [] }
    ensures by_all { spans_of Valve leaks_again
        ≡ span (date 2024 2 20) (Some (date 2024 2 22)) (Some (key (date 2024 3 6) 600)) false
        ∷ span (date 2024 4 20) None None false ∷ [] }
    // Before the reading in March the tag is open, and on its first day it has no attempt.
    ensures still_open { spans_of Valve (events_to (date 2024 3 5) leaks_again) ≡ span (date 2024 2 20) (Some (date 2024 2 22)) None false ∷ [] }
    ensures first_day { spans_of Valve (events_to (date 2024 2 20) leaks_again) ≡ span (date 2024 2 20) None None false ∷ [] }
    ensures law { map (span_on (date 2024 3 5) Valve (events_to (date 2024 3 5) leaks_again)) (detected_by (date 2024 3 5) (spans_of Valve leaks_again))
        ≡ span (date 2024 2 20) (Some (date 2024 2 22)) None false ∷ [] }
{}

/// If two batches have one identity, the facts of both are not those of one with the others inserted.
pub fn batches_of_one_identity()
    ensures both { map (λ e. component_of e.1.body) (facts_of (first_of_identity ∷ second_of_identity ∷ [])) ≡ Some 2 ∷ Some 1 ∷ [] }
    ensures put { map (λ e. component_of e.1.body) (put_each goes_first (entries_of second_of_identity) (facts_of (first_of_identity ∷ [])))
        ≡ Some 1 ∷ Some 2 ∷ [] }
{}

/// A batch that names no component can still change one, by a calibration of its instrument.
pub fn a_calibration_leaves_no_component_alone()
    ensures before { leaks_of_1 (facts_of (base ++ leak_found ∷ [])) ≡ false ∷ [] }
    ensures after { leaks_of_1 (facts_of leaking) ≡ true ∷ [] }
{}

/// A component that was entered in two process units is a member of both, but its unit is the first one.
pub fn a_member_of_two_units()
    ensures first { members_of 1 (facts_of in_two_units) ≡ 1 ∷ [] }
    ensures second { members_of 2 (facts_of in_two_units) ≡ 1 ∷ [] }
    ensures stands { unit_of_1 (facts_of in_two_units) ≡ Some 1 }
{}

/// A batch after which the history is not ruly: it enters a component a second time.
pub fn a_component_again()
    ensures before { is_ruly before_its_unit ≡ true }
    ensures after { is_ruly (before_its_unit ++ entered_again ∷ []) ≡ false }
    ensures verdict { verdict_on before_its_unit entered_again ≡ Denied 1 18 }
{}

/// If facts are out of order, those up to a day are not a prefix.
pub fn a_cut_out_of_order()
    ensures part { length (up_to (date 2024 4 1) out_of_order) ≡ 1 }
    ensures front { length (take_while (λ e. nat_le e.0.day (date 2024 4 1)) out_of_order) ≡ 0 }
{}

/// A shutdown that begins after the day is not known on it.
pub fn a_shutdown_after_the_day()
    ensures by_all { stops_of 1 delayed_leak ≡ stop (date 2024 6 1) (date 2024 6 14) ∷ [] }
    ensures day_before { stops_of 1 (up_to (date 2024 5 31) delayed_leak) ≡ [] }
    ensures first_day { stops_of 1 (up_to (date 2024 6 1) delayed_leak) ≡ stop (date 2024 6 1) (date 2024 6 14) ∷ [] }
{}

/// A class that is entered after the day is in force on later days only by all facts.
pub fn a_class_after_the_day()
    ensures later { (class_on valve_1 (heavy_from (date 2024 5 2)) (date 2024 5 20)).service ≡ Heavy }
    ensures not_known { (class_on valve_1 (classes_of 1 (up_to (date 2024 4 1) changing_valve)) (date 2024 5 20)).service ≡ Gas }
    ensures on_the_day { (class_on valve_1 (heavy_from (date 2024 5 2)) (date 2024 4 1)).service ≡ Gas }
{}

/// The duties of a day are the same if a class is entered later, even within the same month.
pub fn duties_before_a_change()
    ensures changes { duties_with (date 2020 4 20) (valve 1 (date 2020 1 15)) (heavy_from (date 2020 4 25)) []
        ≡ owes 1 2 (date 2020 2 29) ∷ owes 1 2 (date 2020 3 31) ∷ owes 1 2 (date 2020 4 30) ∷ [] }
    ensures unchanged { duties_on (date 2020 4 20) (valve 1 (date 2020 1 15)) []
        ≡ owes 1 2 (date 2020 2 29) ∷ owes 1 2 (date 2020 3 31) ∷ owes 1 2 (date 2020 4 30) ∷ [] }
    // On the day of the change, the valve has no monthly duty, since it is no longer under the rules for valves.
    ensures changed { duties_with (date 2020 4 25) (valve 1 (date 2020 1 15)) (heavy_from (date 2020 4 25)) []
        ≡ owes 1 2 (date 2020 2 29) ∷ owes 1 2 (date 2020 3 31) ∷ [] }
{}

/// For a reading of 2024-02-20, the calibrations and drift assessments of that day matter, and the precision tests from
/// 2023-11-20 to that day.
pub fn what_matters_to_a_reading()
    ensures calibration { map (λ day. is_of_matter 1 (date 2024 2 20) day (Calibration 1 500)) (date 2024 2 19 ∷ date 2024 2 20 ∷ date 2024 2 21 ∷ [])
        ≡ false ∷ true ∷ false ∷ [] }
    ensures drift { map (λ day. is_of_matter 1 (date 2024 2 20) day (Drift 1 500 (440, 440, 440))) (date 2024 2 19 ∷ date 2024 2 20
        ∷ date 2024 2 21 ∷ []) ≡ false ∷ true ∷ false ∷ [] }
    ensures precision { map (λ day. is_of_matter 1 (date 2024 2 20) day (Precision 1 500 (500, 500, 500))) (date 2023 11 19 ∷ date 2023 11 20
        ∷ date 2024 2 20 ∷ date 2024 2 21 ∷ []) ≡ false ∷ true ∷ true ∷ false ∷ [] }
    ensures other_instrument { is_of_matter 1 (date 2024 2 20) (date 2024 2 20) (Calibration 2 500) ≡ false }
{}
