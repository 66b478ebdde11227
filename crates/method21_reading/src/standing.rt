//! How the rule treats a component, including its leak definition, from one fact to the next. It stays the same until a day on
//! which a class is entered, so most facts need no search for a class.

ghost use Rattle.std.specs.Prelude.{◌≡◌};
ghost use Rattle.list_words.specs.Order.{Ascends};
ghost use Rattle.fact_kinds.specs.Facts.{is_earlier};
ghost use Rattle.ldar_law.specs.Force.{limit_on};
ghost use Rattle.method21_reading.specs.Standings.{StandsSo, rules_on};

use crate::rules::Rules;
use fact_kinds::{Class, Key};
use ldar_days::Day;
use ldar_law::{ClassInForce, Equipment};

/// How the rule treats a component on a range of days.
#[derive(Clone, Copy)]
pub struct Standing {
    /// The class in force on these days.
    pub under: ClassInForce,
    pub rules: Rules,
}

impl Standing {
    /// The rules before any class is entered for the component. Its classes are in key order.
    pub fn at_first(equipment: &Equipment, classes: &[(Key, Class)]) -> Standing
        requires ordered { Ascends (λ a b. is_earlier a.0 b.0) classes.now }
        ensures value { StandsSo equipment.now classes.now result }
    {
        let under = ClassInForce::after(equipment, classes, 0);
        Standing {
            under,
            rules: Rules::of(equipment, under.class),
        }
    }

    /// The rules on another day. They stay the same if the day is in the range.
    pub fn moved_to(self, equipment: &Equipment, classes: &[(Key, Class)], day: Day) -> Standing
        requires ordered { Ascends (λ a b. is_earlier a.0 b.0) classes.now }
        requires value { StandsSo equipment.now classes.now self }
        ensures today { result.rules ≡ rules_on equipment.now classes.now (limit_on equipment.now classes.now) day }
        ensures value { StandsSo equipment.now classes.now result }
    {
        if self.under.holds_on(day) {
            return self;
        }
        let under = self.under.moved_to(equipment, classes, day);
        Standing {
            under,
            rules: Rules::of(equipment, under.class),
        }
    }
}
