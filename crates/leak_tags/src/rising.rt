ghost use Rattle.std.specs.Prelude.{◌≡◌, ◌↔◌, ◌&&◌, ◌||◌, nat_lt, IsTrue};
ghost use Rattle.ldar_law.specs.Happenings.{is_leak as says_leak, is_below as says_below};
ghost use Rattle.leak_tags.specs.Telling.{Rises};

use ldar_law::Event;

/// Whether an event is before a day, or is both a leak and below the leak definition.
fn is_out_of_order(event: &Event, today: u32) -> bool
    ensures value { result ≡ (nat_lt event.now.key.day today || (says_leak event.now.what && says_below event.now.what)) }
{
    event.key.day.number() < today || (event.what.is_leak() && event.what.is_below())
}

/// Whether the days of events do not decrease, and none of them is both a leak and below the leak definition. It is
/// true for the events made from a component's facts.
pub fn are_rising(events: &[Event]) -> bool
    ensures value { IsTrue result ↔ Rises 0 events.now }
{
    let mut today = 0;
    for event in events {
        if is_out_of_order(event, today) {
            return false;
        }
        today = event.key.day.number();
    }
    true
}
