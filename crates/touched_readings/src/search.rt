ghost use Rattle.std.specs.Prelude.{◌≡◌, ℕ, ◌+◌, ◌<◌, ◌≤◌, ◌&&◌, Some, not, length, slice_get, option_and_then};
ghost use Rattle.std.specs.List.{list_any};
ghost use Rattle.fact_kinds.specs.Named.{is_numbered};
ghost use Rattle.fact_store.specs.Takes.{AreHeld};
ghost use Rattle.touched_readings.specs.Flags.{flag_of};
ghost use Rattle.touched_readings.specs.Windows.{AreByDay, day_at, stands_in};

use crate::windows::Window;
use fact_kinds::{Fact, Key, component_of};
use fact_store::{Facts, Place, Steps};
use std::sync::ledger::Ledger;

/// Clears the flag of a component, if there is a component and it has a flag.
pub fn clear(fresh: &mut [bool], component: Option<u16>)
    ensures value { (n : ℕ) → flag_of fresh.new n ≡ (flag_of fresh.old n && not (is_numbered component n)) }
    ensures length { length fresh.new ≡ length fresh.old }
{
    if let Some(component) = component {
        let at = usize::from(component);
        if at < fresh.len() {
            fresh[at] = false;
        }
    }
}

/// The fact at one of some places, with its key. The read is counted.
fn look<'a, L: Ledger>(
    store: &'a Facts,
    places: &[Place],
    at: usize,
    steps: &mut Steps<L>,
) -> (&'a Key, &'a Fact)
    requires within { at < length places.now }
    requires held { AreHeld (length store.now.arrived) places.now }
    ensures value { option_and_then (λ place. slice_get store.now.arrived place.at) (slice_get places.now at) ≡ Some (result.0.now, result.1.now) }
    ensures counted { steps.new ≡ steps.old + 1 }
{
    store.fact(places[at], steps)
}

/// Clears the flags of the components that were read in a window, by the places of the readings of its instrument in key order.
/// Each place is read at most once: half of those that remain are left out where the middle one is of a day outside.
pub fn touch_between<L: Ledger>(
    store: &Facts,
    places: &[Place],
    window: &Window,
    fresh: &mut [bool],
    steps: &mut Steps<L>,
)
    requires held { AreHeld (length store.now.arrived) places.now }
    requires ordered { AreByDay (day_at store.now.arrived) places.now }
    ensures value { (n : ℕ) → flag_of fresh.new n
        ≡ (flag_of fresh.old n && not (list_any (stands_in store.now.arrived window.now n) places.now)) }
    ensures length { length fresh.new ≡ length fresh.old }
    ensures counted { steps.new ≤ steps.old + length places.now }
{
    if places.is_empty() {
        return;
    }
    let mid = places.len() / 2;
    let (key, fact) = look(store, places, mid, steps);
    if window.is_after(key.day) {
        touch_between(store, &places[mid + 1..], window, fresh, steps);
        return;
    }
    if window.is_before(key.day) {
        touch_between(store, &places[..mid], window, fresh, steps);
        return;
    }
    clear(fresh, component_of(&fact.body));
    touch_between(store, &places[..mid], window, fresh, steps);
    touch_between(store, &places[mid + 1..], window, fresh, steps);
}
