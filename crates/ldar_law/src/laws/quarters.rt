//! Laws about quarters, their counts, skipped quarters, and routes.

ghost use Rattle.ldar_law.specs.QuarterLaws.{TallyCounts, StopsAreUndone, StreakIsOfGoodQuarters};

/// The counts of a quarter are those of its marks.
pub fn tally_counts()
    ensures law { TallyCounts }
{}

/// The streak is at least n exactly if the last n quarters that were not skipped exist and are good.
pub fn streak_is_of_good_quarters()
    ensures law { StreakIsOfGoodQuarters }
{}

/// A component is a stop of a route exactly if it has a duty that is not done.
pub fn stops_are_undone()
    ensures law { StopsAreUndone }
{}
