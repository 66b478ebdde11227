//! Laws about tags and delays of repair.

ghost use Rattle.ldar_law.specs.RepairLaws.{OneMoreDelay, CountedPlaceIsOfDelay, NoneCounted, CountedPlaceIsLast, SpansFollow, DelaysLieBetween};

/// One more delay counts, or is ignored if its day is past the due day set by those before it.
pub fn one_more_delay()
    ensures law { OneMoreDelay }
{}

/// The place of the last delay that counts is its place among the delays.
pub fn counted_place_is_of_delay()
    ensures law { CountedPlaceIsOfDelay }
{}

/// There is no place exactly if each delay is past the due day set by those before it.
pub fn none_counted()
    ensures law { NoneCounted }
{}

/// The place is that of a delay that is not ignored, and each one after it is ignored.
pub fn counted_place_is_last()
    ensures law { CountedPlaceIsLast }
{}

/// The delays of a tag are those among the events between its detection and its closing.
pub fn delays_lie_between()
    ensures law { DelaysLieBetween }
{}

/// Each tag of a component is closed before the next is detected.
pub fn spans_follow()
    ensures law { SpansFollow }
{}
