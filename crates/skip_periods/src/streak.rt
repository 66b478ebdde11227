ghost use Rattle.std.specs.Prelude.{◌≡◌, ◌+◌, ◌<◌, ◌≤◌, List, ◌∷◌};
ghost use Rattle.ldar_law.specs.Skips.{Past};
ghost use Rattle.skip_periods.specs.Streaks.{Tells};

/// A summary of the quarters before one: how many skipped quarters are directly before it, and how many of the last
/// quarters that were not skipped are good in a row.
#[derive(Clone, Copy, Debug, PartialEq, Eq)]
pub struct Streak {
    pub skips: u16,
    pub good: u16,
}

/// The streak with one more quarter.
#[tactic(auto, unfolding(ldar_law::specs::Skips::skips_run, ldar_law::specs::Skips::good_streak))]
pub fn longer(streak: Streak, is_skipped: bool, was_good: bool) -> Streak
    requires skips { streak.skips < 65_535 }
    requires good { streak.good < 65_535 }
    ensures value { (before : List Past) → Tells streak before → Tells result ((is_skipped, was_good) ∷ before) }
    ensures skips { result.skips ≤ streak.skips + 1 }
    ensures good { result.good ≤ streak.good + 1 }
{
    if is_skipped {
        return Streak {
            skips: streak.skips + 1,
            good: streak.good,
        };
    }
    Streak {
        skips: 0,
        good: if was_good { streak.good + 1 } else { 0 },
    }
}
