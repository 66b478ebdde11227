ghost use Rattle.std.specs.Prelude.{◌≡◌, None, OnOk};
ghost use Rattle.fact_kinds.specs.Named as named;
ghost use Rattle.component_register.specs.Slots.{HasRow, HaveRows, OnlyAdds, TakesUnit};

use crate::entered::unit_entered;
use crate::slots::{make_row, row_of, set_row};
use fact_kinds::{Fact, FactBody, Key, Memory, unit_of};
use ldar_law::UnitEntry;

/// The process units by number.
pub type Units = Vec<Option<UnitEntry>>;

/// The process unit that a fact names, as the number of a row.
fn unit_number(body: &FactBody) -> Option<u16>
    ensures value { result ≡ named.unit_of body.now }
{
    unit_of(body).map(u16::from)
}

/// Makes rows for the process units that these facts name.
pub fn make_units(units: &mut Units, facts: &[Fact]) -> Result<(), Memory>
    ensures adds { OnlyAdds None units.old.items units.new.items }
    ensures roomy { OnOk result (HaveRows named.unit_of facts.now units.new.items) }
{
    for fact in facts {
        make_row(units, None, unit_number(&fact.body))?;
    }
    Ok(())
}

/// Enters a process unit, if a fact with this key does.
pub fn enter_unit(units: &mut Units, key: &Key, body: &FactBody)
    requires { HasRow (named.unit_of body.now) units.old.items }
    ensures value { TakesUnit key.now.day body.now units.old.items units.new.items }
{
    if let Some(unit) = unit_of(body) {
        let known = row_of(units, None, u16::from(unit));
        set_row(
            units,
            u16::from(unit),
            unit_entered(unit, key.day, body).or(known),
        );
    }
}
