//! Worked examples of texts, byte for byte: the contracts of empty functions.
#![tactic(auto)]

ghost use Rattle.std.specs.Prelude.{◌≡◌, None, Some, [], codes, false, length, true, ◌*◌, ◌++◌, ◌+◌, ◌∷◌};
ghost use Rattle.std.specs.List.{flat_map};
ghost use Rattle.list_words.specs.Ranges.{from_to};
ghost use Rattle.ldar_law.specs.declared.delay.Until.TheVariants.{Date, NoDate, Shutdown, WhileIsolated};
ghost use Rattle.ldar_law.specs.declared.reply.Reply.TheVariants.{Conflict, Denied, Fault, Full, Memory, NoSuch, Receipt};
ghost use Rattle.ldar_law.specs.declared.request.What.TheVariants.{Day as NoDay, Half as NoHalf, Quarter as NoQuarter, Stops as NoStops, Unit as NoUnit};
ghost use Rattle.ldar_law.specs.Delays.{delay_entered};
ghost use Rattle.ldar_law.specs.Replies.{reply_text, HasRule};
ghost use Rattle.ldar_law.specs.Short.{date, key};
ghost use Rattle.ldar_law.specs.SmallReport.{delay_entry, filed_months, met_by, small_tag};
ghost use Rattle.ldar_law.specs.Texts.{delays_text, due_text, ground_text, percent_text, report_text, route_text, tags_text};
ghost use Rattle.ldar_law.specs.Verdicts.{paragraph_of};

/// The lines of replies.
pub fn replies()
    ensures receipt { reply_text (Receipt 7 12 1) ≡ codes "receipt 7 12 1\n" }
    ensures conflict { reply_text (Conflict 1) ≡ codes "conflict 1\n" }
    ensures denied { reply_text (Denied 1 10) ≡ codes "denied 1 10 60.482-9a(d)\n" }
    ensures full { reply_text (Full 8_000_001) ≡ codes "full 8000001\n" }
    ensures no_such { reply_text (NoSuch NoStops) ≡ codes "no such stops\n" }
    ensures fault { reply_text Fault ≡ codes "disk fault\n" }
    ensures memory { reply_text Memory ≡ codes "memory\n" }
{}

/// A denial names a rule from 1 to 21.
pub fn rules_of_denials()
    ensures first { HasRule (Denied 1 1) }
    ensures last { HasRule (Denied 9 21) }
    ensures none { ¬ (HasRule (Denied 1 0)) }
    ensures beyond { ¬ (HasRule (Denied 1 22)) }
    ensures other { HasRule (Conflict 0) }
{}

/// A due list with a duty that is open on its due day, one that was missed, and one that is done.
pub fn due_list()
    ensures { due_text 2 (date 2024 2 29) (
        record { component = 30; cause = 2; due = date 2024 2 29; met = None }
        ∷ record { component = 31; cause = 6; due = date 2024 2 25; met = None }
        ∷ record { component = 32; cause = 1; due = date 2024 3 10; met = Some (met_by (date 2024 2 20)) } ∷ [])
        ≡ codes "due 2 2024-02-29\n30 monthly 2024-02-29 open\n31 weekly 2024-02-25 missed\n32 first 2024-03-10 done 2024-02-20\nend 3\n" }
{}

/// The words of the other causes.
pub fn causes()
    ensures { due_text 1 (date 2024 2 20) (
        record { component = 1; cause = 3; due = date 2024 7 31; met = None }
        ∷ record { component = 1; cause = 4; due = date 2024 12 31; met = None }
        ∷ record { component = 1; cause = 5; due = date 2024 5 31; met = None }
        ∷ record { component = 5; cause = 7; due = date 2024 2 24; met = None }
        ∷ record { component = 8; cause = 8; due = date 2024 2 25; met = None }
        ∷ record { component = 7; cause = 9; due = date 2024 2 25; met = None } ∷ [])
        ≡ codes "due 1 2024-02-20\n1 quarterly 2024-07-31 open\n1 yearly 2024-12-31 open\n1 plan 2024-05-31 open\n5 drip 2024-02-24 open\n8 release 2024-02-25 open\n7 evidence 2024-02-25 open\nend 6\n" }
{}

/// A tag that is open and was not attempted, and a closed one whose identification may be removed.
pub fn tag_list()
    ensures none { tags_text 1 (date 2024 2 28) [] ≡ codes "tags 1 2024-02-28\nend 0\n" }
    ensures open { tags_text 1 (date 2024 2 28) (small_tag None None false ∷ [])
        ≡ codes "tags 1 2024-02-28\n1 detected 2024-02-20 attempt 2024-02-25 - repair 2024-03-06 - tagged\nend 1\n" }
    ensures closed { tags_text 1 (date 2024 4 2) (small_tag (Some (date 2024 2 22)) (Some (date 2024 3 6)) true ∷ [])
        ≡ codes "tags 1 2024-04-02\n1 detected 2024-02-20 attempt 2024-02-25 2024-02-22 repair 2024-03-06 2024-03-06 removable\nend 1\n" }
{}

/// Delays with each kind of due day.
pub fn delay_list()
    ensures { delays_text 1 (date 2024 3 2) (
        record { component = 1; detected = date 2024 2 20; delay = delay_entry 1; until = Shutdown; closed = None }
        ∷ record { component = 2; detected = date 2024 2 20; delay = delay_entry 2; until = WhileIsolated; closed = None }
        ∷ record { component = 3; detected = date 2024 2 20; delay = delay_entry 3; until = NoDate; closed = None }
        ∷ record { component = 5; detected = date 2024 2 20; delay = delay_entry 4; until = Date (date 2024 8 20); closed = None } ∷ [])
        ≡ codes "delays 1 2024-03-02\n1 detected 2024-02-20 ground a signer 9 expected 2024-06-10 until shutdown\n2 detected 2024-02-20 ground b signer 9 expected 2024-06-10 until isolated\n3 detected 2024-02-20 ground c signer 9 expected 2024-06-10 until purge\n5 detected 2024-02-20 ground d signer 9 expected 2024-06-10 until 2024-08-20\nend 4\n" }
{}

/// Two routes of at most two stops.
pub fn route_list()
    ensures { route_text 1 (date 2024 2 20) 2 (record { stops = 1 ∷ 2 ∷ [] } ∷ record { stops = 3 ∷ [] } ∷ [])
        ≡ codes "route 1 2024-02-20 2\nroute 1: 1 2\nroute 2: 3\nend 2\n" }
{}

/// The one line of the percent view.
pub fn percent_line()
    ensures no_valve { percent_text 1 16 (record { leaking = 0; monitored = 0 }) false false
        ≡ codes "percent 1 16 leaking 0 monitored 0 not good not skipped\n" }
    ensures size { length (percent_text 1 16 (record { leaking = 0; monitored = 0 }) false false) ≡ 56 }
    ensures skipped { percent_text 1 18 (record { leaking = 3; monitored = 150 }) true true
        ≡ codes "percent 1 18 leaking 3 monitored 150 good skipped\n" }
{}

/// A report with one late valve and no line after its months.
pub fn report_of_a_late_valve()
    ensures { report_text (12 * 2023 + 9) (record {
      unit = 1;
      name = codes "CRUDE";
      half = 8;
      day = date 2024 3 31;
      cells = record { months = filed_months 1 1; delays = []; stops = [] };
    })
        ≡ codes "report CRUDE unit 1 half 8 as of 2024-03-31\n2023-10 valves 0 0 pumps 0 0 compressors 0 0\n2023-11 valves 0 0 pumps 0 0 compressors 0 0\n2023-12 valves 0 0 pumps 0 0 compressors 0 0\n2024-01 valves 0 0 pumps 0 0 compressors 0 0\n2024-02 valves 1 0 pumps 0 0 compressors 0 0\n2024-03 valves 0 1 pumps 0 0 compressors 0 0\nend 6\n" }
{}

/// A report whose half ends after 2099-12, with a delay, a withdrawn delay, and a shutdown.
pub fn report_past_the_calendar()
    ensures { report_text (12 * 2099 + 8) (record {
      unit = 2;
      name = codes "COKER-2";
      half = 4;
      day = date 2099 12 31;
      cells = record {
        months = filed_months 0 0;
        delays = record { component = 1; detected = date 2099 9 20; delay = delay_entry 1; until = Shutdown; closed = None }
            ∷ record { component = 2; detected = date 2099 9 20; delay = delay_entry 0; until = Date (date 2099 10 5); closed = Some (date 2099 10 1) } ∷ [];
        stops = record { first = date 2099 11 1; last = date 2099 11 14 } ∷ [];
      };
    })
        ≡ codes "report COKER-2 unit 2 half 4 as of 2099-12-31\n2099-09 valves 0 0 pumps 0 0 compressors 0 0\n2099-10 valves 0 0 pumps 0 0 compressors 0 0\n2099-11 valves 0 0 pumps 0 0 compressors 0 0\n2099-12 valves 0 0 pumps 0 0 compressors 0 0\n2100-01 valves 0 0 pumps 0 0 compressors 0 0\n2100-02 valves 0 0 pumps 0 0 compressors 0 0\ndelay 1 detected 2099-09-20 ground a signer 9 expected 2024-06-10 until shutdown closed -\ndelay 2 detected 2099-09-20 ground withdrawn signer 9 expected 2024-06-10 until 2099-10-05 closed 2099-10-01\nshutdown 2099-11-01 2099-11-14\nend 9\n" }
{}

/// The reply names what does not exist.
pub fn no_such_replies()
    ensures unit { reply_text (NoSuch NoUnit) ≡ codes "no such unit\n" }
    ensures quarter { reply_text (NoSuch NoQuarter) ≡ codes "no such quarter\n" }
    ensures half { reply_text (NoSuch NoHalf) ≡ codes "no such half\n" }
    ensures day { reply_text (NoSuch NoDay) ≡ codes "no such day\n" }
{}

/// The paragraph of each rule.
pub fn paragraphs()
    ensures { flat_map (λ n. paragraph_of n ++ codes "\n") (from_to 1 21) ≡ codes "60.486a(e)(1)\n60.482-1a(d)\n60.482-1a(e)\n60.486a(a)(3)\n60.482-2a(a)(2)\n60.482-3a(f)\n60.482-4a(b)\n60.482-8a(a)\n60.482-9a(c)\n60.482-9a(d)\n60.482-9a(e)\n60.486a(c)(6)\n60.486a(c)(7)\n60.487a(d)\n60.482-7a(h)(2)(ii)\nP1\nP2\nP3\nP4\nP5\nP6\n" }
{}

/// Each of the 36 numbers of a report is in its place.
pub fn report_of_all_numbers()
    ensures { report_text (12 * 2023 + 9)
        (record { unit = 1; name = codes "CRUDE"; half = 8; day = date 2024 3 31; cells = record { months = from_to 1 36; delays = []; stops = [] } })
        ≡ codes "report CRUDE unit 1 half 8 as of 2024-03-31\n2023-10 valves 1 2 pumps 3 4 compressors 5 6\n2023-11 valves 7 8 pumps 9 10 compressors 11 12\n2023-12 valves 13 14 pumps 15 16 compressors 17 18\n2024-01 valves 19 20 pumps 21 22 compressors 23 24\n2024-02 valves 25 26 pumps 27 28 compressors 29 30\n2024-03 valves 31 32 pumps 33 34 compressors 35 36\nend 6\n" }
{}

/// A delay without a signer and an expected day; a number that is no ground has no word.
pub fn delay_of_nobody()
    ensures no_ground { ground_text (delay_entry 6) ≡ [] }
    ensures signer { delays_text 1 (date 2024 3 2)
        (record { component = 1; detected = date 2024 2 20; delay = delay_entered (key (date 2024 3 1) 600) 2 0 None; until = WhileIsolated; closed = None }
        ∷ [])
        ≡ codes "delays 1 2024-03-02\n1 detected 2024-02-20 ground b signer 0 expected - until isolated\nend 1\n" }
{}
