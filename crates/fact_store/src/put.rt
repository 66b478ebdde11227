ghost use Rattle.std.specs.Prelude.{◌≡◌, ℕ, ◌^◌, ◌<◌, ◌≤◌, Some, length, insert};
ghost use Rattle.list_words.specs.Order.{put_in_order, Ascends};
ghost use Rattle.fact_kinds.specs.Facts.{goes_first};
ghost use Rattle.fact_kinds.specs.Stated.{Stated};
ghost use Rattle.fact_store.specs.Kept.{entries_at};
ghost use Rattle.fact_store.specs.Takes.{AreHeld, CanTake, Takes, is_up_to};

use crate::lists::{Lists, list_of, put_in};
use crate::place::Place;
use fact_kinds::{Fact, Key, precedes};

/// Whether the fact at a place is not later than a key.
fn stands_up_to(arrived: &[(Key, Fact)], key: &Key, place: Place) -> bool
    ensures { result ≡ is_up_to arrived.now key.now place }
{
    arrived
        .get(place.at as usize)
        .is_some_and(|entry| !precedes(key, &entry.0))
}

/// The index for a fact with this key among facts in key order: after those that are not later.
fn index_for(arrived: &[(Key, Fact)], places: &[Place], key: &Key) -> usize
    requires held { AreHeld (length arrived.now) places.now }
    requires ordered { Ascends goes_first (entries_at arrived.now places.now) }
    ensures within { result ≤ length places.now }
    ensures value { (fact : Stated) → put_in_order goes_first (key.now, fact) (entries_at arrived.now places.now)
        ≡ insert (entries_at arrived.now places.now) result (key.now, fact) }
{
    places.partition_point(|place| stands_up_to(arrived, key, *place))
}

/// Inserts the place of one more fact, with this key, into the list of a number, if there is a number.
pub fn put_place(lists: &mut Lists<Place>, arrived: &[(Key, Fact)], number: Option<u16>, key: &Key)
    requires takes { CanTake arrived.now number lists.old.items }
    requires few { length arrived.now < 2 ^ 32 }
    ensures { Takes arrived.now number key.now lists.old.items lists.new.items }
{
    if let Some(number) = number {
        put_at(lists, arrived, number, key);
    }
}

/// Inserts the place of one more fact, with this key, into the list of this number.
fn put_at(lists: &mut Lists<Place>, arrived: &[(Key, Fact)], number: u16, key: &Key)
    requires takes { CanTake arrived.now (Some number) lists.old.items }
    requires few { length arrived.now < 2 ^ 32 }
    ensures { Takes arrived.now (Some number) key.now lists.old.items lists.new.items }
{
    let place = Place {
        at: arrived.len() as u32,
    };
    let index = index_for(arrived, list_of(lists, number), key);
    put_in(lists, number, index, place);
}
