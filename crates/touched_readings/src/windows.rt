ghost use Rattle.std.specs.Prelude.{◌≡◌, ◌≤◌, ◌&&◌, Some, IsPermutation, ◌⊎◌, nat_eq, nat_lt};
ghost use Rattle.ldar_days.specs.declared.day.TheConstants.{LAST_DAY};
ghost use Rattle.touched_readings.specs.Windows as spec;
ghost use Rattle.touched_readings.specs.Windows.{is_on, Leaves};

use fact_kinds::{Fact, FactBody};
use ldar_days::Day;

/// The readings with an instrument on the days from the first to the last.
#[derive(Clone, Copy, Debug, PartialEq, Eq)]
pub struct Window {
    pub instrument: u16,
    pub first: Day,
    pub last: Day,
}

impl Window {
    /// Whether the window begins after a day.
    pub fn is_after(&self, day: Day) -> bool
        ensures value { result ≡ nat_lt day self.now.first }
    {
        day < self.first
    }

    /// Whether the window ends before a day.
    pub fn is_before(&self, day: Day) -> bool
        ensures value { result ≡ nat_lt self.now.last day }
    {
        self.last < day
    }
}

/// The readings that a calibration or a drift assessment (of its day) or a precision test (of three months from its day) may
/// judge anew (40 CFR 60.485a(b); EPA Method 21, section 8.1.2).
pub fn window_of(fact: &Fact) -> Option<Window>
    ensures value { result ≡ spec.window_of fact.now }
{
    let (instrument, last) = match fact.body {
        FactBody::Calibration { instrument, .. } | FactBody::Drift { instrument, .. } => (
            instrument, fact.day,
        ),
        FactBody::Precision { instrument, .. } => (instrument, fact.day.plus_months(3)),
        _ => return None,
    };
    Some(Window {
        instrument,
        first: fact.day,
        last,
    })
}

/// Sorts windows by instrument and first day.
pub fn sort_windows(windows: &mut [Window])
    ensures same { IsPermutation windows.old windows.new }
{
    windows.sort_unstable_by_key(|window| (window.instrument, window.first));
}

/// Whether the first day of a window is in another one of its instrument.
fn begins_in(window: &Window, other: &Window) -> bool
    ensures value { result ≡ (nat_eq other.now.instrument window.now.instrument && is_on other.now window.now.first) }
    ensures in_range { window.now.first ≤ LAST_DAY }
{
    let first = window.first.number();
    other.instrument == window.instrument
        && other.first.number() <= first
        && first <= other.last.number()
}

/// What is left of a window without the days of another one in which it begins.
pub fn rest_of(window: &Window, done: &Option<Window>) -> Window
    ensures value { Leaves window.now done.now result }
{
    let mut rest = *window;
    if let Some(done) = done {
        if begins_in(window, done) {
            rest.first = done.last.plus_days(1);
        }
    }
    rest
}

/// Of two windows the one that ends later, if both are of one instrument, or else the second.
pub fn later_end(done: &Option<Window>, window: &Window) -> Window
    ensures value { (done.now ≡ Some result) ⊎ (result ≡ window.now) }
{
    match done {
        Some(done) if done.instrument == window.instrument && window.last < done.last => *done,
        _ => *window,
    }
}
