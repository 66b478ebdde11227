//! Worked examples of the definitions: the contracts of empty functions, each clause proved by computing.
#![tactic(auto, unfolding(list_words::specs::Ranges::until, crate::specs::Moments::is_before, crate::specs::Repairs::opens_tag, crate::specs::Repairs::closing_of, crate::specs::Seals::is_sealed, crate::specs::Seals::tags_of_sort, crate::specs::Seals::seal_tags, crate::specs::Seals::seal_duties))]

ghost use Rattle.std.specs.Prelude.{◌≡◌, ◌∷◌, [], Some, None};
ghost use Rattle.pump_seals.specs.declared.row.SealWhat.TheVariants.{On, Off, Present, Gone};
ghost use Rattle.pump_seals.specs.Samples.{pump, pump_until, read_at, leak_at, drips_at, dry_at, attempt_at, mark, sealed, tag, duty_of};
ghost use Rattle.pump_seals.specs.Seals.{seal_tags, seal_duties};

/// The last row of a day or before that seals or unseals the pump decides for the whole day.
pub fn sealed_days()
    ensures on { seal_tags pump [] (sealed ∷ mark Present 19_773 600 ∷ []) 19_774 ≡ tag 3 19_773 None None ∷ [] }
    ensures never { seal_tags pump [] (mark Present 19_773 600 ∷ []) 19_774 ≡ [] }
    ensures off_later_that_day { seal_tags pump [] (sealed ∷ mark Present 19_773 600 ∷ mark Off 19_773 1_439 ∷ []) 19_774 ≡ [] }
    ensures on_later_that_day { seal_tags pump [] (mark Present 19_773 600 ∷ mark On 19_773 1_439 ∷ []) 19_774 ≡ tag 3 19_773 None None ∷ [] }
    ensures on_again { seal_tags pump [] (sealed ∷ mark Off 19_760 0 ∷ mark On 19_770 0 ∷ mark Present 19_773 600 ∷ []) 19_774 ≡ tag 3 19_773 None None ∷ [] }
    ensures off_settles_nothing { seal_tags pump [] (sealed ∷ mark Present 19_773 600 ∷ mark Off 19_774 0 ∷ []) 19_774 ≡ tag 3 19_773 None None ∷ [] }
{}

/// A leak counts on a day on which the pump is in service; going out of service settles nothing.
pub fn in_service()
    ensures before { seal_tags (pump_until (Some 19_774)) [] (sealed ∷ mark Present 19_773 600 ∷ []) 19_774 ≡ tag 3 19_773 None None ∷ [] }
    ensures after { seal_tags (pump_until (Some 19_773)) [] (sealed ∷ mark Present 19_773 600 ∷ []) 19_774 ≡ [] }
{}

/// A sensor's failure is settled by its end, at a later minute.
pub fn sensors()
    ensures gone { seal_tags pump [] (sealed ∷ mark Present 19_773 600 ∷ mark Gone 19_773 900 ∷ []) 19_774 ≡ tag 3 19_773 None (Some 19_773) ∷ [] }
    ensures gone_at_once { seal_tags pump [] (sealed ∷ mark Present 19_773 600 ∷ mark Gone 19_773 600 ∷ []) 19_774 ≡ tag 3 19_773 None None ∷ [] }
    ensures twice { seal_tags pump [] (sealed ∷ mark Present 19_772 600 ∷ mark Present 19_773 600 ∷ mark Gone 19_774 0 ∷ []) 19_774
        ≡ tag 3 19_772 None (Some 19_774) ∷ [] }
    ensures leak_at_the_end { seal_tags pump [] (sealed ∷ mark Present 19_772 600 ∷ mark Gone 19_773 600 ∷ mark Present 19_773 600 ∷ []) 19_774
        ≡ tag 3 19_772 None None ∷ [] }
    ensures again { seal_tags pump [] (sealed ∷ mark Present 19_772 600 ∷ mark Gone 19_773 0 ∷ mark Present 19_773 600 ∷ []) 19_774
        ≡ tag 3 19_772 None (Some 19_773) ∷ tag 3 19_773 None None ∷ [] }
{}

/// A counting reading of 2,000 ppm is a leak. A lower one settles it after an attempt, if no leak is between the attempt and it.
pub fn readings()
    ensures below { seal_tags pump (read_at 19_760 0 1_999 ∷ []) (sealed ∷ []) 19_774 ≡ [] }
    ensures high { seal_tags pump (read_at 19_760 0 2_000 ∷ []) (sealed ∷ []) 19_774 ≡ tag 1 19_760 None None ∷ [] }
    ensures no_attempt { seal_tags pump (read_at 19_760 0 2_000 ∷ read_at 19_761 0 100 ∷ []) (sealed ∷ []) 19_774 ≡ tag 1 19_760 None None ∷ [] }
    ensures attempt { seal_tags pump (read_at 19_760 0 2_000 ∷ attempt_at 19_760 1 ∷ read_at 19_761 0 100 ∷ []) (sealed ∷ []) 19_774
        ≡ tag 1 19_760 (Some 19_760) (Some 19_761) ∷ [] }
    ensures attempt_at_once { seal_tags pump (read_at 19_760 0 2_000 ∷ attempt_at 19_760 0 ∷ read_at 19_761 0 100 ∷ []) (sealed ∷ []) 19_774
        ≡ tag 1 19_760 None None ∷ [] }
    ensures leak_between { seal_tags pump (read_at 19_760 0 2_000 ∷ attempt_at 19_760 1 ∷ read_at 19_760 2 3_000 ∷ read_at 19_761 0 100 ∷ []) (sealed ∷ []) 19_774
        ≡ tag 1 19_760 (Some 19_760) None ∷ [] }
    ensures attempt_after_closing { seal_tags pump (leak_at 19_760 0 ∷ dry_at 19_761 0 ∷ attempt_at 19_762 0 ∷ []) (sealed ∷ []) 19_774
        ≡ tag 2 19_760 (Some 19_762) (Some 19_761) ∷ [] }
{}

/// Drips that are a leak are settled by a dry visual inspection, without an attempt. Two leaks at the same minute open two tags.
pub fn drip_leaks()
    ensures dry { seal_tags pump (leak_at 19_760 0 ∷ dry_at 19_760 1 ∷ []) (sealed ∷ []) 19_774 ≡ tag 2 19_760 None (Some 19_760) ∷ [] }
    ensures dry_at_once { seal_tags pump (leak_at 19_760 0 ∷ dry_at 19_760 0 ∷ []) (sealed ∷ []) 19_774 ≡ tag 2 19_760 None None ∷ [] }
    ensures no_leak { seal_tags pump (drips_at 19_760 0 ∷ []) (sealed ∷ []) 19_774 ≡ [] }
    ensures two { seal_tags pump (leak_at 19_760 0 ∷ leak_at 19_760 0 ∷ []) (sealed ∷ []) 19_774 ≡ tag 2 19_760 None None ∷ tag 2 19_760 None None ∷ [] }
    ensures other_sorts { seal_tags pump (leak_at 19_760 0 ∷ attempt_at 19_760 1 ∷ read_at 19_761 0 100 ∷ []) (sealed ∷ mark Gone 19_761 0 ∷ []) 19_774
        ≡ tag 2 19_760 (Some 19_760) None ∷ [] }
{}

/// A closed tag is on the list for 366 days.
pub fn listed_tags()
    ensures last_day { seal_tags pump (leak_at 19_760 0 ∷ dry_at 19_761 0 ∷ []) (sealed ∷ []) 20_127 ≡ tag 2 19_760 None (Some 19_761) ∷ [] }
    ensures past { seal_tags pump (leak_at 19_760 0 ∷ dry_at 19_761 0 ∷ []) (sealed ∷ []) 20_128 ≡ [] }
{}

/// After drips that are no leak, a later counting reading or a visual inspection that is a leak is due within five days.
pub fn drips()
    ensures open { seal_duties pump (drips_at 19_755 0 ∷ []) (sealed ∷ []) 19_756 ≡ duty_of 1 19_757 (Some 19_755) ∷ duty_of 2 19_760 None ∷ [] }
    ensures reading { seal_duties pump (drips_at 19_755 0 ∷ read_at 19_755 1 9_000 ∷ []) (sealed ∷ []) 19_756
        ≡ duty_of 1 19_757 (Some 19_755) ∷ duty_of 2 19_760 (Some 19_755) ∷ [] }
    ensures at_once { seal_duties pump (drips_at 19_755 0 ∷ read_at 19_755 0 100 ∷ []) (sealed ∷ []) 19_756
        ≡ duty_of 1 19_757 (Some 19_755) ∷ duty_of 2 19_760 None ∷ [] }
    ensures leak { seal_duties pump (drips_at 19_755 0 ∷ leak_at 19_756 0 ∷ []) (sealed ∷ []) 19_756
        ≡ duty_of 1 19_757 (Some 19_755) ∷ duty_of 2 19_760 (Some 19_756) ∷ [] }
    ensures small_drips { seal_duties pump (drips_at 19_755 0 ∷ drips_at 19_756 0 ∷ []) (sealed ∷ []) 19_756
        ≡ duty_of 1 19_757 (Some 19_755) ∷ duty_of 2 19_760 None ∷ duty_of 2 19_761 None ∷ [] }
    ensures unsealed { seal_duties pump (drips_at 19_753 0 ∷ []) (sealed ∷ mark Off 19_755 0 ∷ []) 19_755 ≡ [] }
{}

/// A visual inspection is due in each week in which the pump is sealed and in service on the Sunday, or on the day of the list.
pub fn weeks()
    ensures weeks { seal_duties pump [] (sealed ∷ []) 19_774
        ≡ duty_of 1 19_757 None ∷ duty_of 1 19_764 None ∷ duty_of 1 19_771 None ∷ duty_of 1 19_778 None ∷ [] }
    ensures met { seal_duties pump (dry_at 19_765 0 ∷ drips_at 19_766 0 ∷ []) (sealed ∷ []) 19_768
        ≡ duty_of 1 19_757 None ∷ duty_of 1 19_764 None ∷ duty_of 1 19_771 (Some 19_765) ∷ duty_of 2 19_771 None ∷ [] }
    ensures week_before { seal_duties pump (dry_at 19_764 0 ∷ []) (sealed ∷ []) 19_765 ≡ duty_of 1 19_757 None ∷ duty_of 1 19_771 None ∷ [] }
    ensures judged_on_sunday { seal_duties pump [] (sealed ∷ mark Off 19_757 0 ∷ []) 19_764 ≡ [] }
    ensures judged_on_the_day { seal_duties pump [] (sealed ∷ []) 19_754 ≡ duty_of 1 19_757 None ∷ [] }
{}
