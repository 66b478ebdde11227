ghost use Rattle.std.specs.Prelude.{◌≡◌};
ghost use Rattle.fact_store.specs.Kept.{facts_in};
ghost use Rattle.history_laws.specs.DayLaws as days;
ghost use Rattle.office_views.specs.Asked.{unit_known};

use component_register::Register;
use ldar_days::Day;
use ldar_law::UnitEntry;

/// A process unit, if it has started up by a day.
fn if_started(day: Day, unit: UnitEntry) -> Option<UnitEntry>
    ensures value { result ≡ days.if_started day unit }
{
    if day < unit.startup {
        return None;
    }
    Some(unit)
}

/// The process unit of a number, if it has started up by a day; one above 255 is none.
pub fn unit_on(register: &Register, unit: u16, day: Day) -> Option<UnitEntry>
    ensures value { result ≡ unit_known unit day (facts_in register.now) }
{
    if unit > 255 {
        return None;
    }
    if_started(day, register.unit(unit as u8)?)
}
