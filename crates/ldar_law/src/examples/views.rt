//! Worked examples of views on a small office, from its batches to the bytes: the contracts of empty functions.
#![tactic(auto)]

ghost use Rattle.std.specs.Prelude.{◌≡◌, Some, [], codes, false, true, ◌++◌, ◌∷◌};
ghost use Rattle.fact_kinds.specs.declared.body.FactBody.TheVariants.{Attempt, Class as ClassFact, Delay, Election, Indication, Precision};
ghost use Rattle.fact_kinds.specs.declared.body.Sort.TheVariants.{Sensor};
ghost use Rattle.fact_kinds.specs.declared.class.Designation.TheVariants.{Nde};
ghost use Rattle.fact_kinds.specs.declared.class.Service.TheVariants.{Gas, Heavy};
ghost use Rattle.ldar_law.specs.declared.reply.Reply.TheVariants.{NoSuch, Shown};
ghost use Rattle.ldar_law.specs.declared.request.Request.TheVariants.{Delays, Due, Percent, Report, Route, Tags};
ghost use Rattle.ldar_law.specs.declared.request.What.TheVariants.{Half as NoHalf, Quarter as NoQuarter, Stops as NoStops, Unit as NoUnit};
ghost use Rattle.ldar_law.specs.Short.{date};
ghost use Rattle.ldar_law.specs.Shown.{shown};
ghost use Rattle.ldar_law.specs.SmallOffice.{base, coker, coker_election, coker_leak, coker_readings, coker_rounds, coker_with, delayed_on, designated, enters};
ghost use Rattle.ldar_law.specs.SmallOffice.{in_service, last_unit, leak_found, leaking, on, register, repaired_on, rounds, sends, shut_down, two_valves};

/// The percent view of a quarter without readings.
pub fn percent_of_no_reading()
    ensures { shown base (Percent 1 16 (date 2024 3 31))
        ≡ Some (Shown (codes "percent 1 16 leaking 0 monitored 0 not good not skipped\n")) }
{}

/// A reading without a calibration opens no tag; it does when the day's calibration arrives in a later batch.
pub fn tag_of_a_late_calibration()
    ensures before { shown (base ++ leak_found ∷ []) (Tags 1 (date 2024 2 28)) ≡ Some (Shown (codes "tags 1 2024-02-28\nend 0\n")) }
    ensures after { shown leaking (Tags 1 (date 2024 2 28))
        ≡ Some (Shown (codes "tags 1 2024-02-28\n1 detected 2024-02-20 attempt 2024-02-25 - repair 2024-03-06 - tagged\nend 1\n")) }
    ensures day_before { shown leaking (Tags 1 (date 2024 2 19)) ≡ Some (Shown (codes "tags 1 2024-02-19\nend 0\n")) }
{}

/// A tag that was closed in time, and whose identification may be removed after a second clean month.
pub fn removable_tag()
    ensures closed { shown (repaired_on (date 2024 3 6)) (Tags 1 (date 2024 3 6))
        ≡ Some (Shown (codes "tags 1 2024-03-06\n1 detected 2024-02-20 attempt 2024-02-25 2024-02-22 repair 2024-03-06 2024-03-06 tagged\nend 1\n")) }
    ensures removable { shown (repaired_on (date 2024 3 6) ++ sends 4 (rounds (date 2024 4 2) 1 20) ∷ []) (Tags 1 (date 2024 4 2))
        ≡ Some (Shown (codes "tags 1 2024-04-02\n1 detected 2024-02-20 attempt 2024-02-25 2024-02-22 repair 2024-03-06 2024-03-06 removable\nend 1\n")) }
{}

/// The report of the half with a tag that was closed one day late.
pub fn report_of_a_late_tag()
    ensures { shown (repaired_on (date 2024 3 7)) (Report 1 8 (date 2024 3 31))
        ≡ Some (Shown (codes "report CRUDE unit 1 half 8 as of 2024-03-31\n2023-10 valves 0 0 pumps 0 0 compressors 0 0\n2023-11 valves 0 0 pumps 0 0 compressors 0 0\n2023-12 valves 0 0 pumps 0 0 compressors 0 0\n2024-01 valves 0 0 pumps 0 0 compressors 0 0\n2024-02 valves 1 0 pumps 0 0 compressors 0 0\n2024-03 valves 0 1 pumps 0 0 compressors 0 0\nend 6\n")) }
{}

/// A delay until a shutdown that has not been entered, and one whose shutdown has; one that was entered too late is
/// ignored.
pub fn delay_until_a_shutdown()
    ensures unknown { shown (delayed_on (date 2024 3 1)) (Delays 1 (date 2024 3 2))
        ≡ Some (Shown (codes "delays 1 2024-03-02\n1 detected 2024-02-20 ground a signer 9 expected 2024-06-10 until shutdown\nend 1\n")) }
    ensures known { shown (delayed_on (date 2024 3 1) ++ shut_down ∷ []) (Tags 1 (date 2024 7 1))
        ≡ Some (Shown (codes "tags 1 2024-07-01\n1 detected 2024-02-20 attempt 2024-02-25 - repair 2024-06-14 - tagged\nend 1\n")) }
    ensures attempted { shown (delayed_on (date 2024 3 1) ++ shut_down ∷ sends 4 (on (date 2024 6 5) (Attempt 1 false) ∷ []) ∷ []) (Tags 1 (date 2024 7 1))
        ≡ Some (Shown (codes "tags 1 2024-07-01\n1 detected 2024-02-20 attempt 2024-02-25 2024-06-05 repair 2024-06-30 - tagged\nend 1\n")) }
    ensures too_late { shown (delayed_on (date 2024 3 7)) (Delays 1 (date 2024 3 8)) ≡ Some (Shown (codes "delays 1 2024-03-08\nend 0\n")) }
{}

/// The report of a half has lines for its delay and its shutdown.
pub fn report_of_a_delay()
    ensures { shown (delayed_on (date 2024 3 1) ++ shut_down ∷ []) (Report 1 9 (date 2024 7 1))
        ≡ Some (Shown (codes "report CRUDE unit 1 half 9 as of 2024-07-01\n2024-04 valves 0 0 pumps 0 0 compressors 0 0\n2024-05 valves 0 0 pumps 0 0 compressors 0 0\n2024-06 valves 0 1 pumps 0 0 compressors 0 0\n2024-07 valves 0 0 pumps 0 0 compressors 0 0\n2024-08 valves 0 0 pumps 0 0 compressors 0 0\n2024-09 valves 0 0 pumps 0 0 compressors 0 0\ndelay 1 detected 2024-02-20 ground a signer 9 expected 2024-06-10 until 2024-06-14 closed -\nshutdown 2024-06-01 2024-06-14\nend 8\n")) }
{}

/// The six months of a pump that needs a dual seal end with the month.
pub fn delay_for_a_dual_seal()
    ensures { shown (base ++ sends 1 (on (date 2023 8 1) (Precision 1 500 (500, 500, 500)) ∷ rounds (date 2023 8 31) 5 2000
        ++ on (date 2023 9 5) (Delay 5 4 9 (Some (date 2024 2 1))) ∷ []) ∷ []) (Tags 1 (date 2023 10 1))
        ≡ Some (Shown (codes "tags 1 2023-10-01\n5 detected 2023-08-31 attempt 2023-09-05 - repair 2024-02-29 - tagged\nend 1\n")) }
{}

/// The due list of a valve: its first month, and a route to it.
pub fn first_month_of_a_valve()
    ensures due { shown coker (Due 2 (date 2024 2 20)) ≡ Some (Shown (codes "due 2 2024-02-20\n30 monthly 2024-02-29 open\nend 1\n")) }
    ensures route { shown coker (Route 2 (date 2024 2 20) 2) ≡ Some (Shown (codes "route 2 2024-02-20 2\nroute 1: 30\nend 1\n")) }
{}

/// Two clean months make a valve quarterly; a leak that arrives late makes it monthly again from its month on.
pub fn late_leak()
    ensures quarterly { shown coker_rounds (Due 2 (date 2024 9 10)) ≡ Some (Shown (codes "due 2 2024-09-10\nend 0\n")) }
    ensures monthly { shown (coker_rounds ++ coker_leak ∷ []) (Due 2 (date 2024 9 10))
        ≡ Some (Shown (codes "due 2 2024-09-10\n30 monthly 2024-05-31 missed\n30 monthly 2024-06-30 missed\n30 monthly 2024-08-31 missed\n30 monthly 2024-09-30 open\nend 4\n")) }
    ensures tag { shown (coker_rounds ++ coker_leak ∷ []) (Tags 2 (date 2024 9 10))
        ≡ Some (Shown (codes "tags 2 2024-09-10\n30 detected 2024-04-20 attempt 2024-04-25 - repair 2024-05-05 - tagged\nend 1\n")) }
{}

/// What does not exist is reported: first the unit, as of the view day, then stops, a quarter or a half.
pub fn no_such_thing()
    ensures unit { shown base (Route 2 (date 2024 2 20) 0) ≡ Some (NoSuch NoUnit) }
    ensures unit_not_yet { shown base (Due 1 (date 2020 1 14)) ≡ Some (NoSuch NoUnit) }
    ensures stops { shown base (Route 1 (date 2024 2 20) 0) ≡ Some (NoSuch NoStops) }
    ensures quarter_0 { shown base (Percent 1 0 (date 2024 3 31)) ≡ Some (NoSuch NoQuarter) }
    ensures quarter_not_yet { shown base (Percent 1 17 (date 2024 3 31)) ≡ Some (NoSuch NoQuarter) }
    ensures half_0 { shown base (Report 1 0 (date 2024 3 31)) ≡ Some (NoSuch NoHalf) }
    ensures half_not_yet { shown base (Report 1 9 (date 2024 3 31)) ≡ Some (NoSuch NoHalf) }
{}

/// The last half that begins in the calendar is shown with two months after it; the next one does not exist.
pub fn end_of_the_calendar()
    ensures last_half { shown last_unit (Report 1 4 (date 2099 12 31))
        ≡ Some (Shown (codes "report CRUDE unit 1 half 4 as of 2099-12-31\n2099-09 valves 0 0 pumps 0 0 compressors 0 0\n2099-10 valves 0 0 pumps 0 0 compressors 0 0\n2099-11 valves 0 0 pumps 0 0 compressors 0 0\n2099-12 valves 0 0 pumps 0 0 compressors 0 0\n2100-01 valves 0 0 pumps 0 0 compressors 0 0\n2100-02 valves 0 0 pumps 0 0 compressors 0 0\nend 6\n")) }
    ensures next_half { shown last_unit (Report 1 5 (date 2099 12 31)) ≡ Some (NoSuch NoHalf) }
    ensures last_quarter { shown last_unit (Percent 1 8 (date 2099 12 31))
        ≡ Some (Shown (codes "percent 1 8 leaking 0 monitored 0 not good not skipped\n")) }
    ensures next_quarter { shown last_unit (Percent 1 9 (date 2099 12 31)) ≡ Some (NoSuch NoQuarter) }
{}

/// An election of skip periods is in force for the quarter that begins on its day: the quarter is skipped, and its month owes nothing.
pub fn elected_quarter()
    ensures percent { shown (coker_rounds ++ coker_election ∷ []) (Percent 2 3 (date 2024 10 5))
        ≡ Some (Shown (codes "percent 2 3 leaking 0 monitored 0 not good skipped\n")) }
    ensures not_elected { shown coker_rounds (Due 2 (date 2024 10 5)) ≡ Some (Shown (codes "due 2 2024-10-05\n30 quarterly 2024-10-31 open\nend 1\n")) }
    ensures elected { shown (coker_rounds ++ coker_election ∷ []) (Due 2 (date 2024 10 5)) ≡ Some (Shown (codes "due 2 2024-10-05\nend 0\n")) }
{}

/// The report of a leak of a compressor's sensor, in its own columns.
pub fn report_of_a_sensor_leak()
    ensures { shown (base ++ sends 1 (on (date 2024 2 20) (Indication 9 Sensor true) ∷ []) ∷ []) (Report 1 8 (date 2024 3 31))
        ≡ Some (Shown (codes "report CRUDE unit 1 half 8 as of 2024-03-31\n2023-10 valves 0 0 pumps 0 0 compressors 0 0\n2023-11 valves 0 0 pumps 0 0 compressors 0 0\n2023-12 valves 0 0 pumps 0 0 compressors 0 0\n2024-01 valves 0 0 pumps 0 0 compressors 0 0\n2024-02 valves 0 0 pumps 0 0 compressors 1 0\n2024-03 valves 0 0 pumps 0 0 compressors 0 1\nend 6\n")) }
{}

/// The percent view of a quarter in which one of two valves leaks, and of one in which none does; a valve in heavy liquid service is not counted.
pub fn percent_of_two_readings()
    ensures one_leaks { shown two_valves (Percent 1 16 (date 2024 3 31)) ≡ Some (Shown (codes "percent 1 16 leaking 1 monitored 2 not good not skipped\n")) }
    ensures one_is_left { shown (two_valves ++ enters 2 (on (date 2024 2 1) (ClassFact 2 (in_service Heavy)) ∷ []) ∷ []) (Percent 1 16 (date 2024 3 31))
        ≡ Some (Shown (codes "percent 1 16 leaking 0 monitored 1 good not skipped\n")) }
{}

/// The tag of a valve whose number is not that of its unit, with the unit's shutdown.
pub fn shutdown_of_the_unit()
    ensures of_valve_2 { shown (two_valves ++ shut_down ∷ []) (Tags 1 (date 2024 7 1))
        ≡ Some (Shown (codes "tags 1 2024-07-01\n2 detected 2024-02-20 attempt 2024-02-25 - repair 2024-06-14 - tagged\nend 1\n")) }
    ensures heavy { shown (two_valves ++ enters 2 (on (date 2024 2 1) (ClassFact 2 (in_service Heavy)) ∷ []) ∷ []) (Tags 1 (date 2024 7 1))
        ≡ Some (Shown (codes "tags 1 2024-07-01\nend 0\n")) }
{}

/// A closed tag leaves the list after 366 days.
pub fn tag_closed_a_year_ago()
    ensures last_day { shown (repaired_on (date 2024 3 6)) (Tags 1 (date 2025 3 7))
        ≡ Some (Shown (codes "tags 1 2025-03-07\n1 detected 2024-02-20 attempt 2024-02-25 2024-02-22 repair 2024-03-06 2024-03-06 tagged\nend 1\n")) }
    ensures day_after { shown (repaired_on (date 2024 3 6)) (Tags 1 (date 2025 3 8)) ≡ Some (Shown (codes "tags 1 2025-03-08\nend 0\n")) }
{}

/// A valve with no detectable emissions when it was entered is counted by its class since then, and the quarters are skipped.
pub fn quarters_by_the_class_in_force()
    ensures percent { shown (coker_with (designated Nde) ++ coker_readings
        ∷ enters 4 (on (date 2024 1 16) (ClassFact 30 (in_service Gas)) ∷ []) ∷ coker_election ∷ []) (Percent 2 3 (date 2024 10 5))
        ≡ Some (Shown (codes "percent 2 3 leaking 0 monitored 0 not good skipped\n")) }
    ensures due { shown (coker_with (designated Nde) ++ coker_readings
        ∷ enters 4 (on (date 2024 1 16) (ClassFact 30 (in_service Gas)) ∷ []) ∷ coker_election ∷ []) (Due 2 (date 2024 10 5))
        ≡ Some (Shown (codes "due 2 2024-10-05\nend 0\n")) }
{}

/// A route of at most three stops.
pub fn route_of_three_stops()
    ensures { shown coker (Route 2 (date 2024 2 20) 3) ≡ Some (Shown (codes "route 2 2024-02-20 3\nroute 1: 30\nend 1\n")) }
{}

/// An election is in force from the quarter on that begins on its day, and not in the quarter before.
pub fn election_of_the_next_quarter()
    ensures percent { shown (coker_rounds ++ enters 3 (on (date 2025 1 1) (Election 2 1 (date 2024 10 1)) ∷ []) ∷ []) (Percent 2 3 (date 2025 1 5))
        ≡ Some (Shown (codes "percent 2 3 leaking 0 monitored 0 not good not skipped\n")) }
    ensures due { shown (coker_rounds ++ enters 3 (on (date 2025 1 1) (Election 2 1 (date 2024 10 1)) ∷ []) ∷ []) (Due 2 (date 2025 1 5))
        ≡ Some (Shown (codes "due 2 2025-01-05\n30 quarterly 2024-10-31 missed\n30 quarterly 2025-01-31 open\nend 2\n")) }
{}

/// Routes of two stops: the pumps have missed a week, and the valves have their month.
pub fn routes_of_two_stops()
    ensures { shown (register ∷ []) (Route 1 (date 2020 2 20) 2)
        ≡ Some (Shown (codes "route 1 2020-02-20 2\nroute 1: 5 6\nroute 2: 1 2\nroute 3: 3 4\nend 3\n")) }
{}
