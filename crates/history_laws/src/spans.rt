//! Laws about the tags of a component by the events up to a day and by all events.

ghost use Rattle.history_laws.specs.SpanLaws.{SpansUpToADay, SpansByFactsUpToADay};

/// The tags by the events up to a day are the tags by all events without what is after the day: later detections,
/// attempts and closings. Whether a tag is removable is decided again, by the events up to the day.
pub fn spans_up_to_a_day()
    ensures law { SpansUpToADay }
    ensures facts { SpansByFactsUpToADay }
{}
