//! What is known of a component on a day, as far as it counts among the valves of its process unit.

ghost use Rattle.std.specs.Prelude.{◌≡◌, ◌≤◌, length};
ghost use Rattle.fact_kinds.specs.declared.limits.TheConstants.{BATCH_FACTS};
ghost use Rattle.batch_rules.specs.Known.{register_at};
ghost use Rattle.batch_rules.specs.Seen.{class_seen, is_valve_seen, seen_in, seen_with, share_seen};

use crate::known_facts::{Known, later_class};
use crate::share::{NOTHING, Share};
use component_register::{component_entered, retires};
use fact_kinds::{Class, Fact, Key};
use ldar_days::Day;
use ldar_law::{Equipment, is_difficult_designated, is_valve};

/// What is known of a component on a day.
#[derive(Clone, Copy)]
pub struct Seen {
    /// The component as it was entered, without its retirement.
    pub item: Option<Equipment>,
    /// Whether it is out of service on the day.
    pub retired: bool,
    /// The last class that was entered for it by the day, with its key.
    pub latest: Option<(Key, Class)>,
}

/// Nothing is known.
pub const UNSEEN: Seen = Seen {
    item: None,
    retired: false,
    latest: None,
};

/// What is known of a component on a day.
pub fn seen_of(known: &Known, component: u16, day: Day) -> Seen
    requires few { length known.now.front.now ≤ BATCH_FACTS }
    ensures value { result ≡ seen_in (register_at known.now) component day }
{
    Seen {
        item: known.component(component),
        retired: known.is_retired(component, day),
        latest: known.class_by(component, day),
    }
}

impl Seen {
    /// What is known of the component after one more fact of its batch, with its key.
    pub fn after(&self, component: u16, day: Day, key: Key, fact: &Fact) -> Seen
        ensures value { result ≡ seen_with component day (key, fact.now) self.now }
    {
        Seen {
            item: self
                .item
                .or(component_entered(component, &None, key.day, &fact.body)),
            retired: self.retired || retires(component, &fact.body) && key.day <= day,
            latest: later_class(self.latest, component, day, key, fact),
        }
    }

    /// Whether it is a valve of the process unit, in service on the day.
    fn is_valve_of(&self, item: &Equipment, unit: u8, day: Day) -> bool
        ensures value { result ≡ is_valve_seen unit day self.now item.now }
    {
        item.unit == unit && is_valve(item.kind) && item.begin <= day && !self.retired
    }

    /// The class in force on the day.
    fn class_of(&self, item: &Equipment) -> Class
        ensures value { result ≡ class_seen self.now item.now }
    {
        match self.latest {
            Some((_, class)) => class,
            None => item.class,
        }
    }

    /// The share of a process unit on the day that it adds.
    pub fn share(&self, unit: u8, day: Day) -> Share
        ensures value { result ≡ share_seen unit day self.now }
        ensures one { (result.valves ≤ 1) × (result.difficult ≤ 1) }
    {
        let Some(item) = self.item else {
            return NOTHING;
        };
        if !self.is_valve_of(&item, unit, day) {
            return NOTHING;
        }
        if is_difficult_designated(self.class_of(&item).designation) {
            return Share {
                valves: 1,
                difficult: 1,
            };
        }
        Share {
            valves: 1,
            difficult: 0,
        }
    }
}
