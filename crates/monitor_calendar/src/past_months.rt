ghost use Rattle.std.specs.Prelude.{◌≡◌, ℕ, ◌≤◌, true, false, List, [], ◌∷◌, ◌++◌};
ghost use Rattle.std.specs.List.{AllByRecursion};
ghost use Rattle.ldar_days.specs.Calendar.{month_of};
ghost use Rattle.ldar_law.specs.declared.event.Event.{Event as SomeEvent};
ghost use Rattle.ldar_law.specs.declared.numbers.TheConstants.{LAST_FACT_DAY};
ghost use Rattle.ldar_law.specs.Happenings.{is_leak};
ghost use Rattle.monitor_calendar.specs.Behind.{Tells, pair_with, lets_be_quarterly};

use ldar_days::{Day, first_quarter};
use ldar_law::{Event, quarter_start};

/// A summary of the events of earlier months, as far as it decides which later months of a valve are quarterly (40 CFR
/// 60.482-7a(c)(1)).
#[derive(Clone, Copy)]
pub struct PastMonths {
    /// The month of the last leak, or 0 for none.
    pub leak: u32,
    /// The last month after it with a counting routine reading below the leak definition, or 0 for none. It does not
    /// matter after two months in a row are known.
    pub below: u32,
    /// The first month after it that has such a reading and is followed by a month that has one.
    pub pair: Option<u32>,
}

impl PastMonths {
    /// The summary of no events.
    pub fn none() -> PastMonths
        ensures value { Tells result 0 [] }
    {
        PastMonths {
            leak: 0,
            below: 0,
            pair: None,
        }
    }

    /// The summary after a leak, whatever came before it, in a month that is not earlier.
    pub fn of_leak(e: &Event) -> PastMonths
        requires leak { is_leak e.now.what ≡ true }
        ensures value { (front : List SomeEvent) → AllByRecursion (λ x. month_of x.key.day ≤ month_of e.now.key.day) front
            → Tells result (month_of e.now.key.day) (front ++ e.now ∷ []) }
    {
        PastMonths {
            leak: e.key.day.month().number(),
            below: 0,
            pair: None,
        }
    }

    /// The summary with one more event, of a month that is not earlier.
    pub fn with(self, e: &Event) -> PastMonths
        ensures value { (last : ℕ) (front : List SomeEvent) → Tells self last front → last ≤ month_of e.now.key.day
            → Tells result (month_of e.now.key.day) (front ++ e.now ∷ []) }
    {
        if e.what.is_leak() {
            return PastMonths::of_leak(e);
        }
        self.with_sound(e)
    }

    /// The summary with one more event that is no leak.
    pub fn with_sound(self, e: &Event) -> PastMonths
        requires sound { is_leak e.now.what ≡ false }
        ensures value { (last : ℕ) (front : List SomeEvent) → Tells self last front → last ≤ month_of e.now.key.day
            → Tells result (month_of e.now.key.day) (front ++ e.now ∷ []) }
    {
        // The first two months in a row stay until a leak; the months of later readings do not matter.
        if self.pair.is_some() {
            return self;
        }
        if !e.what.is_routine_below() {
            return self;
        }
        let month = e.key.day.month().number();
        if month <= self.leak {
            return self;
        }
        PastMonths {
            leak: self.leak,
            below: month,
            pair: self.pair_with(month),
        }
    }

    /// The first of two months in a row that have such a reading, if this month has one too.
    fn pair_with(self, month: u32) -> Option<u32>
        requires month { 23_640 ≤ month }
        ensures value { result ≡ pair_with self month }
    {
        match self.pair {
            Some(first) => Some(first),
            None => {
                if month - 1 == self.below {
                    Some(self.below)
                } else {
                    None
                }
            }
        }
    }

    /// Whether they make the month quarterly.
    pub fn let_be_quarterly(self, startup: Day, month: u32) -> bool
        requires startup { startup ≤ LAST_FACT_DAY }
        ensures value { result ≡ lets_be_quarterly self startup month }
    {
        match self.pair {
            Some(first) => {
                first_quarter(startup).number() <= month
                    && first < quarter_start(startup, month).saturating_sub(1)
            }
            None => false,
        }
    }
}
