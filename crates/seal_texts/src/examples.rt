//! Worked examples of the definitions: the contracts of empty functions, each clause proved by computing.

ghost use Rattle.std.specs.Prelude.{◌≡◌, ◌∷◌, [], None, Some, codes};
ghost use Rattle.seal_texts.specs.Samples.{duty, tag};
ghost use Rattle.seal_texts.specs.SealTexts.{line_text, seals_text};

/// A duty is open through its due day, and missed after it, until it is met.
pub fn states()
    ensures open { line_text 19_757 (duty 1 19_757 None) ≡ codes "5 sealweek 2024-02-04 open\n" }
    ensures missed { line_text 19_758 (duty 1 19_757 None) ≡ codes "5 sealweek 2024-02-04 missed\n" }
    ensures done { line_text 19_758 (duty 2 19_757 (Some 19_756)) ≡ codes "5 sealdrip 2024-02-04 done 2024-02-03\n" }
{}

/// An attempt is due within five days and a repair within fifteen days, at most on the last day of the calendar.
pub fn tags()
    ensures reading { line_text 19_774 (tag 1 19_773 None None)
        ≡ codes "5 seal reading detected 2024-02-20 attempt 2024-02-25 - repair 2024-03-06 -\n" }
    ensures drip { line_text 19_774 (tag 2 19_773 (Some 19_774) None)
        ≡ codes "5 seal drip detected 2024-02-20 attempt 2024-02-25 2024-02-21 repair 2024-03-06 -\n" }
    ensures sensor { line_text 19_774 (tag 3 19_773 None (Some 19_773))
        ≡ codes "5 seal sensor detected 2024-02-20 attempt 2024-02-25 - repair 2024-03-06 2024-02-20\n" }
    ensures last_day { line_text 47_481 (tag 3 47_480 None None)
        ≡ codes "5 seal sensor detected 2099-12-30 attempt 2099-12-31 - repair 2099-12-31 -\n" }
{}

/// The last line has the number of lines between the first line and it.
pub fn views()
    ensures nothing { seals_text 1 19_774 [] ≡ codes "seals 1 2024-02-21\nend 0\n" }
    ensures lines { seals_text 1 19_774 (duty 1 19_778 None ∷ tag 3 19_773 None None ∷ [])
        ≡ codes "seals 1 2024-02-21\n5 sealweek 2024-02-25 open\n5 seal sensor detected 2024-02-20 attempt 2024-02-25 - repair 2024-03-06 -\nend 2\n" }
{}
