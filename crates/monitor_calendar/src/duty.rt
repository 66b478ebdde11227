ghost use Rattle.std.specs.Prelude.{◌≡◌, ◌++◌, OnOk};
ghost use Rattle.std.specs.Option.{option_to_list};
ghost use Rattle.monitor_calendar.specs.Causes as causes;

use crate::asked::Asked;
use fact_kinds::{Key, Memory};
use ldar_days::Day;
use ldar_law::{Duty, is_listed};

impl Asked<'_> {
    /// An owed duty, from the key of the fact that met it, if it belongs on the list.
    pub fn duty(&self, cause: u8, first: Day, due: Day, met: &Option<Key>) -> Option<Duty>
        ensures value { result ≡ causes.duty_met_by self.now cause first due met.now }
    {
        if !is_listed(self.day, first, due, met.is_none()) {
            return None;
        }
        Some(Duty {
            component: self.item.component,
            cause,
            due,
            met: *met,
        })
    }
}

/// Adds an item, if there is one.
pub fn put<T: Copy + Drop>(items: &mut Vec<T>, item: &Option<T>) -> Result<(), Memory>
    ensures put { OnOk result (items.new.items ≡ items.old.items ++ option_to_list item.now) }
{
    if let Some(item) = item {
        items.push(*item)?;
    }
    Ok(())
}
