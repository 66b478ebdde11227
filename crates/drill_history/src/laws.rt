//! Laws about the history of a drill: empty functions whose contracts are the laws.

ghost use Rattle.drill_history.specs.Laws.{DrillIsRuly, DrillIdentitiesDiffer, DrillCounts, DrillSendsOneAgain, DrillUnitIsEntered, DrillShowsQuarter};

/// The history of a drill is ruly, whatever its seed and its size: each batch passes after those before it.
pub fn drill_is_ruly()
    ensures law { DrillIsRuly }
{}

/// The batches of a drill have different identities.
pub fn drill_identities_differ()
    ensures law { DrillIdentitiesDiffer }
{}

/// A drill has a fact for its unit and for each valve, and in each of 12 months a reading of each valve, a calibration
/// and a precision test.
pub fn drill_counts()
    ensures law { DrillCounts }
{}

/// The batch that is sent once more is one of the history.
pub fn drill_sends_one_again()
    ensures law { DrillSendsOneAgain }
{}

/// On the day of its views, the unit of a drill was entered, and its quarter has begun.
pub fn drill_shows()
    ensures entered { DrillUnitIsEntered }
    ensures quarter { DrillShowsQuarter }
{}
