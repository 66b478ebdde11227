ghost use Rattle.std.specs.Prelude.{◌≡◌, ℕ, ◌+◌, ◌<◌, ◌≤◌, ◌++◌, ◌&&◌, not, length, take, sum_by};
ghost use Rattle.std.specs.List.{filter_map, list_any};
ghost use Rattle.std.specs.Option.{option_to_list};
ghost use Rattle.fact_kinds.specs.Facts.{entries_of};
ghost use Rattle.fact_store.specs.Coming.{listed_front};
ghost use Rattle.touched_readings.specs.Flags.{flag_of};
ghost use Rattle.touched_readings.specs.Windows as spec;
ghost use Rattle.touched_readings.specs.Windows.{is_judged_anew, is_read_in, readings_with, reads_for};

use crate::search::touch_between;
use crate::windows::{Window, later_end, rest_of, sort_windows, window_of};
use fact_kinds::{BATCH_FACTS, Batch, Fact};
use fact_store::{Facts, Steps};
use std::sync::ledger::Ledger;

/// Writes a window after the first `count`, if there is one. Gives the number of windows.
fn put(windows: &mut [Window], count: usize, window: Option<Window>) -> usize
    requires { count < length windows.old }
    ensures value { take result windows.new ≡ take count windows.old ++ option_to_list window }
    ensures length { length windows.new ≡ length windows.old }
    ensures count { result ≤ count + 1 }
{
    match window {
        Some(window) => {
            windows[count] = window;
            count + 1
        }
        None => count,
    }
}

/// Writes the windows of the tests among some facts. Gives their number.
fn put_windows(facts: &[Fact], windows: &mut [Window]) -> usize
    requires { length facts.now ≤ length windows.old }
    ensures value { take result windows.new ≡ filter_map spec.window_of facts.now }
    ensures count { result ≤ length windows.new }
{
    let mut count = 0;
    for fact in facts {
        count = put(windows, count, window_of(fact));
    }
    count
}

/// Clears the flag of each component that was read in a window.
fn touch_window<L: Ledger>(store: &Facts, window: &Window, fresh: &mut [bool], steps: &mut Steps<L>)
    ensures value { (n : ℕ) → flag_of fresh.new n
        ≡ (flag_of fresh.old n && not (list_any (is_read_in window.now n) (listed_front store.now).arrived)) }
    ensures length { length fresh.new ≡ length fresh.old }
    ensures counted { steps.new ≤ steps.old + readings_with window.now.instrument store.now.arrived }
{
    let places = store.listed_readings(window.instrument);
    touch_between(store, places, window, fresh, steps);
}

/// Clears the flag of each component that was read in one of these windows. The days of a window that are in an earlier one are left
/// out; if they are sorted, no reading is looked for twice.
fn touch_windows<L: Ledger>(
    store: &Facts,
    windows: &[Window],
    fresh: &mut [bool],
    steps: &mut Steps<L>,
)
    ensures value { (n : ℕ) → flag_of fresh.new n
        ≡ (flag_of fresh.old n && not (list_any (λ window. list_any (is_read_in window n) (listed_front store.now).arrived) windows.now)) }
    ensures length { length fresh.new ≡ length fresh.old }
    ensures counted { steps.new ≤ steps.old + sum_by (λ window. readings_with window.instrument store.now.arrived) windows.now }
{
    let mut done = None;
    for window in windows {
        let rest = rest_of(window, &done);
        touch_window(store, &rest, fresh, steps);
        done = Some(later_end(&done, window));
    }
}

/// Sorts windows and clears the flag of each component that was read in one of them.
fn touch_sorted<L: Ledger>(
    store: &Facts,
    windows: &mut [Window],
    fresh: &mut [bool],
    steps: &mut Steps<L>,
)
    ensures value { (n : ℕ) → flag_of fresh.new n
        ≡ (flag_of fresh.old n && not (list_any (λ window. list_any (is_read_in window n) (listed_front store.now).arrived) windows.old)) }
    ensures length { length fresh.new ≡ length fresh.old }
    ensures counted { steps.new ≤ steps.old + sum_by (λ window. readings_with window.instrument store.now.arrived) windows.old }
{
    sort_windows(windows);
    touch_windows(store, windows, fresh, steps);
}

/// Clears the flag of each component of which a listed reading may be judged anew after this batch: one of its calibrations, precision
/// tests and drift assessments matters to the reading. Facts that are not listed are not read. It takes no memory.
pub fn touch_readings<L: Ledger>(
    store: &Facts,
    batch: &Batch,
    fresh: &mut [bool],
    steps: &mut Steps<L>,
)
    ensures value { (n : ℕ) → flag_of fresh.new n
        ≡ (flag_of fresh.old n && not (is_judged_anew (listed_front store.now).arrived (entries_of batch.now) n)) }
    ensures length { length fresh.new ≡ length fresh.old }
    ensures counted { steps.new ≤ steps.old + sum_by (λ fact. reads_for store.now.arrived fact.body) batch.now.facts }
{
    let facts = batch.facts.as_slice();
    let fact = facts[0];
    let none = Window {
        instrument: 0,
        first: fact.day,
        last: fact.day,
    };
    let mut windows = [none; BATCH_FACTS];
    let count = put_windows(facts, &mut windows);
    touch_sorted(store, &mut windows[..count], fresh, steps);
}
