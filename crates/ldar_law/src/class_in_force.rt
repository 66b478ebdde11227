//! The class of a component that is in force on a day. It is found by binary search, or kept from one day to the next,
//! so that most days need no search among the component's classes.

ghost use Rattle.std.specs.Prelude.{◌≡◌, ◌≤◌, ◌<◌, ◌-◌, ◌&&◌, ℕ, false, nat_le, nat_lt, filter, length, slice_get, slice_index_or};
ghost use Rattle.std.specs.Option.{option_map_or};
ghost use Rattle.list_words.specs.Order.{Ascends};
ghost use Rattle.fact_kinds.specs.Facts.{is_earlier};
ghost use Rattle.ldar_law.specs.ClassInForce.{HasEntered, IsInForce};
ghost use Rattle.ldar_law.specs.Force as force;

use crate::equipment::Equipment;
use fact_kinds::{Class, Key};
use ldar_days::Day;

/// A number greater than that of any day.
const AFTER_ALL_DAYS: u32 = 65_536;

/// A class of a component, with the days on which it is in force.
#[derive(Clone, Copy)]
pub struct ClassInForce {
    /// The number of the first day.
    pub first: u32,
    /// The number of the day after the last one.
    pub end: u32,
    /// How many of the component's classes were entered by the last day.
    pub entered: usize,
    pub class: Class,
}

/// The number of the day on which the class at a place was entered, or a number greater than that of any day if there is no
/// such class.
fn day_at(classes: &[(Key, Class)], place: usize) -> u32
    ensures value { (day : ℕ) → day < 65_536 → option_map_or (λ e. nat_le e.0.day day) (slice_get classes.now place) false ≡ nat_le result day }
    ensures bound { result ≤ 65_536 }
{
    match classes.get(place) {
        Some(e) => e.0.day.number(),
        None => AFTER_ALL_DAYS,
    }
}

/// The number of the day on which the class before a place was entered, or 0 if there is no such class.
fn day_before(classes: &[(Key, Class)], place: usize) -> u32
    ensures value { (day : ℕ) → day < 65_536 → 0 < place
        → option_map_or (λ e. nat_le e.0.day day) (slice_get classes.now (place - 1)) false ≡ nat_le result day }
    ensures none { place ≡ 0 → result ≡ 0 }
{
    if place == 0 {
        return 0;
    }
    day_at(classes, place - 1)
}

/// How many of a component's classes, in key order, were entered by a day; by binary search.
fn entered_by(classes: &[(Key, Class)], day: Day) -> usize
    requires ordered { Ascends (λ a b. is_earlier a.0 b.0) classes.now }
    ensures within { result ≤ length classes.now }
    ensures value { HasEntered day classes.now result }
{
    classes.partition_point(|e| e.0.day <= day)
}

/// How many of a component's classes, in key order, were entered by a day. The first `from` were; the others are tested
/// one by one.
pub fn entered_from(classes: &[(Key, Class)], from: usize, day: Day) -> usize
    requires within { from ≤ length classes.now }
    requires front { (k : ℕ) (e : Key × Class) → k < from → (slice_index_or classes.now k e).0.day ≤ day }
    requires ordered { Ascends (λ a b. is_earlier a.0 b.0) classes.now }
    ensures within { result ≤ length classes.now }
    ensures value { HasEntered day classes.now result }
{
    let number = day.number();
    let mut place = from;
    while place < classes.len() && classes[place].0.day.number() <= number {
        place += 1;
    }
    place
}

/// The classes of a component that were entered by a day, from its classes in key order.
pub fn entered_to(classes: &[(Key, Class)], day: Day) -> &[(Key, Class)]
    requires ordered { Ascends (λ a b. is_earlier a.0 b.0) classes.now }
    ensures value { result.now ≡ filter (λ e. nat_le e.0.day day) classes.now }
    ensures ordered { Ascends (λ a b. is_earlier a.0 b.0) result.now }
{
    &classes[..entered_by(classes, day)]
}

/// The last class entered for a component by a day, with the key of its fact, from its classes in key order; `None` if no
/// class was entered by then.
pub fn last_entered(classes: &[(Key, Class)], day: Day) -> Option<(Key, Class)>
    requires ordered { Ascends (λ a b. is_earlier a.0 b.0) classes.now }
    ensures value { result ≡ force.class_by day classes.now }
{
    let count = entered_by(classes, day);
    if count == 0 {
        return None;
    }
    Some(classes[count - 1])
}

impl Equipment {
    /// The class in force on each day by which exactly this many of the component's classes were entered.
    fn class_after(&self, classes: &[(Key, Class)], count: usize) -> Class
        requires within { count ≤ length classes.now }
        ensures value { (day : ℕ) → HasEntered day classes.now count → result ≡ force.class_on self.now classes.now day }
    {
        if count == 0 {
            return self.class;
        }
        classes[count - 1].1
    }

    /// The class in force on a day (our own rule), from the component's classes in key order: the last one entered by
    /// then, or the one with which the component was entered.
    pub fn class_on(&self, classes: &[(Key, Class)], day: Day) -> Class
        requires ordered { Ascends (λ a b. is_earlier a.0 b.0) classes.now }
        ensures value { result ≡ force.class_on self.now classes.now day }
    {
        self.class_after(classes, entered_by(classes, day))
    }
}

impl ClassInForce {
    /// The class in force on the days by which exactly this many of a component's classes, in key order, were entered.
    pub fn after(equipment: &Equipment, classes: &[(Key, Class)], count: usize) -> ClassInForce
        requires within { count ≤ length classes.now }
        requires ordered { Ascends (λ a b. is_earlier a.0 b.0) classes.now }
        ensures within { (day : ℕ) → day < 65_536 → HasEntered day classes.now count → (result.first ≤ day) × (day < result.end) }
        ensures value { IsInForce equipment.now classes.now result }
    {
        ClassInForce {
            first: day_before(classes, count),
            end: day_at(classes, count),
            entered: count,
            class: equipment.class_after(classes, count),
        }
    }

    /// The class on a day, from a component's classes in key order.
    pub fn on(equipment: &Equipment, classes: &[(Key, Class)], day: Day) -> ClassInForce
        requires ordered { Ascends (λ a b. is_earlier a.0 b.0) classes.now }
        ensures today { result.class ≡ force.class_on equipment.now classes.now day }
        ensures within { (result.first ≤ day) × (day < result.end) }
        ensures value { IsInForce equipment.now classes.now result }
    {
        ClassInForce::after(equipment, classes, entered_by(classes, day))
    }

    /// Whether it is in force on a day.
    pub fn holds_on(&self, day: Day) -> bool
        ensures value { result ≡ (nat_le self.now.first day && nat_lt day self.now.end) }
    {
        let number = day.number();
        self.first <= number && number < self.end
    }

    /// The class on another day. It is the same one if that is in force on the day. For a later day, the classes that were
    /// not entered yet are tested one by one; for an earlier day, there is a binary search.
    pub fn moved_to(self, equipment: &Equipment, classes: &[(Key, Class)], day: Day) -> ClassInForce
        requires ordered { Ascends (λ a b. is_earlier a.0 b.0) classes.now }
        requires value { IsInForce equipment.now classes.now self }
        ensures today { result.class ≡ force.class_on equipment.now classes.now day }
        ensures within { (result.first ≤ day) × (day < result.end) }
        ensures value { IsInForce equipment.now classes.now result }
    {
        if self.holds_on(day) {
            return self;
        }
        if self.end <= day.number() {
            let count = entered_from(classes, self.entered, day);
            return ClassInForce::after(equipment, classes, count);
        }
        ClassInForce::on(equipment, classes, day)
    }
}
