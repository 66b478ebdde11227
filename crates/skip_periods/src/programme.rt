ghost use Rattle.std.specs.Prelude.{◌≡◌, ◌-◌, ◌≤◌, false, nat_le, length, slice_get, option_map, IfOk};
ghost use Rattle.std.specs.Option.{option_map_or};
ghost use Rattle.list_words.specs.Order.{Ascends};
ghost use Rattle.list_words.specs.Words.{last_such};
ghost use Rattle.ldar_days.specs.Quarters.{quarter_first};
ghost use Rattle.fact_kinds.specs.Facts.{is_earlier};
ghost use Rattle.ldar_law.specs.Percent.{is_good};
ghost use Rattle.ldar_law.specs.Skips as law;
ghost use Rattle.ldar_law.specs.declared.numbers.TheConstants.{LAST_FACT_DAY};
ghost use Rattle.skip_periods.specs.Streaks.{Tells};

use crate::streak::{Streak, longer};
use fact_kinds::Memory;
use ldar_days::{Day, quarter_first};
use ldar_law::{ElectionEntry, Tally};
use std::alloc::Global;

/// The mode of the last election by a day, from elections in key order.
fn mode_by(elections: &[ElectionEntry], day: Day) -> Option<u8>
    ensures value { result ≡ option_map (λ e. e.mode) (last_such (λ e. nat_le e.key.day day) elections.now) }
{
    elections
        .iter()
        .rev()
        .find(|e| e.key.day <= day)
        .map(|e| e.mode)
}

/// The mode elected on a day; 0 for no election.
#[tactic(auto, using(crate::proofs::StreakLemmas::mapped_or, crate::proofs::StreakLemmas::none_mapped))]
fn mode_on(elections: &[ElectionEntry], day: Day) -> u8
    ensures value { result ≡ law.mode_on elections.now day }
{
    match mode_by(elections, day) {
        Some(mode) => mode,
        None => 0,
    }
}

/// The mode elected on a day, by binary search; the elections must be in key order.
fn ordered_mode_on(elections: &[ElectionEntry], day: Day) -> u8
    requires ordered { Ascends (λ a b. is_earlier a.key b.key) elections.now }
    ensures value { result ≡ law.mode_on elections.now day }
{
    let count = elections.partition_point(|e| e.key.day <= day);
    if count == 0 {
        0
    } else {
        elections[count - 1].mode
    }
}

/// Whether a quarter was good.
fn was_good(tallies: &[Tally], quarter: u16) -> bool
    requires quarter { 1 ≤ quarter }
    ensures value { result ≡ option_map_or is_good (slice_get tallies.now (quarter - 1)) false }
{
    match tallies.get(usize::from(quarter - 1)) {
        Some(tally) => tally.is_good(),
        None => false,
    }
}

/// Whether a quarter with this mode and this streak before it is skipped (40 CFR 60.483-2a(b)(2), (3)).
fn skips_after(mode: u8, streak: Streak) -> bool
    ensures value { result ≡ law.skips_after mode streak.skips streak.good }
{
    match mode {
        1 => streak.skips == 0 && 2 <= streak.good,
        3 => streak.skips < 3 && 5 <= streak.good,
        _ => false,
    }
}

/// Whether a quarter with this streak before it is skipped, by the mode elected on its first day.
fn is_skipped_after(elections: &[ElectionEntry], startup: Day, quarter: u16, streak: Streak) -> bool
    requires startup { startup ≤ LAST_FACT_DAY }
    requires quarter { 1 ≤ quarter }
    ensures value { result ≡ law.skips_after (law.mode_on elections.now (quarter_first startup quarter)) streak.skips streak.good }
{
    skips_after(mode_on(elections, quarter_first(startup, quarter)), streak)
}

/// The streak of the quarters before one.
fn streak_before(
    tallies: &[Tally],
    elections: &[ElectionEntry],
    startup: Day,
    quarter: u16,
) -> Streak
    requires startup { startup ≤ LAST_FACT_DAY }
    requires quarter { 1 ≤ quarter }
    ensures value { Tells result (law.quarters tallies.now elections.now startup (quarter - 1)) }
{
    let mut streak = Streak { skips: 0, good: 0 };
    for past in 1..quarter {
        let is_skipped = is_skipped_after(elections, startup, past, streak);
        streak = longer(streak, is_skipped, was_good(tallies, past));
    }
    streak
}

/// Whether a quarter of a process unit is skipped (our own rule, after 40 CFR 60.483-2a(b)). The tallies are those of
/// its quarters from quarter 1 on, at least one for each quarter before this one. The elections are in key order.
pub fn skipped(tallies: &[Tally], elections: &[ElectionEntry], startup: Day, quarter: u16) -> bool
    requires startup { startup ≤ LAST_FACT_DAY }
    requires quarter { 1 ≤ quarter }
    requires tallies { quarter - 1 ≤ length tallies.now }
    ensures value { result ≡ law.is_skipped tallies.now elections.now startup quarter }
{
    let streak = streak_before(tallies, elections, startup, quarter);
    is_skipped_after(elections, startup, quarter, streak)
}

/// Which quarters of a process unit are skipped, from quarter 1 to the given one (our own rule, after 40 CFR
/// 60.483-2a(b)): entry 0 is the result of `skipped` for quarter 1. Each quarter is looked at once. The tallies are those
/// of its quarters from quarter 1 on; a quarter without a tally is not good. The elections are in key order. Returns an
/// error if it is out of memory.
pub fn all_skipped(
    alloc: Global,
    tallies: &[Tally],
    elections: &[ElectionEntry],
    startup: Day,
    quarter: u16,
) -> Result<Vec<bool>, Memory>
    requires startup { startup ≤ LAST_FACT_DAY }
    requires ordered { Ascends (λ a b. is_earlier a.key b.key) elections.now }
    ensures value { IfOk result (λ skipped. skipped.items ≡ law.skipped_to tallies.now elections.now startup quarter) }
{
    let mut all = Vec::with_capacity(alloc, usize::from(quarter))?;
    let mut streak = Streak { skips: 0, good: 0 };
    for past in 0..quarter {
        let number = past + 1;
        let mode = ordered_mode_on(elections, quarter_first(startup, number));
        let is_skipped = skips_after(mode, streak);
        all.push(is_skipped)?;
        streak = longer(streak, is_skipped, was_good(tallies, number));
    }
    Ok(all)
}
