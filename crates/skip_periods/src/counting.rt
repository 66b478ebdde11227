//! Whether a component is a valve that is counted, from one quarter to the next. It stays the same until the quarter by whose
//! judging day another class is entered, so most quarters need no search, and the quarter of each class is computed once.

ghost use Rattle.std.specs.Prelude.{◌≡◌, ◌<◌, ◌≤◌, ℕ, false, [], length, slice_index_or};
ghost use Rattle.list_words.specs.Order.{Ascends};
ghost use Rattle.fact_kinds.specs.Facts.{is_earlier};
ghost use Rattle.ldar_law.specs.Percent as law;
ghost use Rattle.ldar_law.specs.declared.numbers.TheConstants.{LAST_FACT_DAY};
ghost use Rattle.skip_periods.specs.Counting.{CountsAfter, CountsFrom};

use crate::percent::is_counted_of;
use fact_kinds::{Class, Key};
use ldar_days::{Day, quarter_of};
use ldar_law::{ClassInForce, Equipment};

/// One past the largest quarter number (`u16`).
const AFTER_ALL_QUARTERS: u32 = 65_536;

/// Whether a component is a valve that is counted, for a run of quarters.
#[derive(Clone, Copy)]
pub struct Counting {
    pub is_counted: bool,
    /// How many of its classes were entered by the day on which the quarters are judged.
    pub entered: usize,
    /// The quarter after the last one: by its judging day another class is entered.
    pub end: u32,
}

/// The first quarter that is judged on the day `entered` or later, on the list of the day `day`.
fn judged_from(startup: Day, entered: Day, day: Day) -> u32
    requires startup { startup ≤ LAST_FACT_DAY }
    ensures before { (quarter : ℕ) → quarter < result → law.judging_day startup quarter day < entered }
    ensures value { (quarter : ℕ) → quarter < 65_536 → result ≤ quarter → entered ≤ law.judging_day startup quarter day }
{
    if day.number() < entered.number() {
        return AFTER_ALL_QUARTERS;
    }
    match quarter_of(startup, entered.month()) {
        Some(quarter) => u32::from(quarter),
        None => 0,
    }
}

/// The first quarter by whose judging day the class at a place is entered; one past the largest quarter number if there
/// is no such class.
fn quarter_at(classes: &[(Key, Class)], place: usize, startup: Day, day: Day) -> u32
    requires startup { startup ≤ LAST_FACT_DAY }
    ensures before { (quarter : ℕ) (e : Key × Class) → quarter < result → place < length classes.now
        → law.judging_day startup quarter day < (slice_index_or classes.now place e).0.day }
    ensures value { (quarter : ℕ) → quarter < 65_536 → result ≤ quarter → (place < length classes.now)
        × ((e : Key × Class) → (slice_index_or classes.now place e).0.day ≤ law.judging_day startup quarter day) }
{
    if place >= classes.len() {
        return AFTER_ALL_QUARTERS;
    }
    judged_from(startup, classes[place].0.day, day)
}

impl Counting {
    /// The quarters after this many of a component's classes were entered.
    fn after(
        equipment: &Equipment,
        classes: &[(Key, Class)],
        place: usize,
        startup: Day,
        day: Day,
    ) -> Counting
        requires within { place ≤ length classes.now }
        requires startup { startup ≤ LAST_FACT_DAY }
        requires ordered { Ascends (λ a b. is_earlier a.0 b.0) classes.now }
        ensures entered { result.entered ≡ place }
        ensures value { CountsAfter equipment.now classes.now startup day result }
    {
        let under = ClassInForce::after(equipment, classes, place);
        Counting {
            is_counted: is_counted_of(equipment, under.class),
            entered: place,
            end: quarter_at(classes, place, startup, day),
        }
    }

    /// The quarters before the first class of a component, in key order, is entered.
    pub fn at_first(
        equipment: &Equipment,
        classes: &[(Key, Class)],
        startup: Day,
        day: Day,
    ) -> Counting
        requires startup { startup ≤ LAST_FACT_DAY }
        requires ordered { Ascends (λ a b. is_earlier a.0 b.0) classes.now }
        ensures value { (quarter : ℕ) → CountsFrom equipment.now classes.now startup day quarter result }
    {
        Counting::after(equipment, classes, 0, startup, day)
    }

    /// Moves on to a later quarter, on the list of the day, by the classes of the component in key order. Nothing changes if
    /// the quarter is before the end.
    pub fn move_to(
        &mut self,
        equipment: &Equipment,
        classes: &[(Key, Class)],
        startup: Day,
        quarter: u16,
        day: Day,
    )
        requires startup { startup ≤ LAST_FACT_DAY }
        requires ordered { Ascends (λ a b. is_earlier a.0 b.0) classes.now }
        requires value { CountsFrom equipment.now classes.now startup day quarter self.old }
        ensures counted { self.new.is_counted ≡ law.is_counted equipment.now classes.now startup [] false quarter day }
        ensures value { CountsFrom equipment.now classes.now startup day quarter self.new }
    {
        while self.end <= u32::from(quarter) {
            *self = Counting::after(equipment, classes, self.entered + 1, startup, day);
        }
    }
}
