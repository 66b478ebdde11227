ghost use Rattle.std.specs.Prelude.{◌≡◌};
ghost use Rattle.ldar_law.specs.Equipment as law;
ghost use Rattle.component_register.specs.Members.{joined};

use fact_kinds::FactBody;
use ldar_days::Day;
use ldar_law::{Equipment, UnitEntry};

/// Whether a fact takes the component out of service.
pub fn retires(number: u16, body: &FactBody) -> bool
    ensures value { result ≡ law.retires number body.now }
{
    match *body {
        FactBody::Retire { component } => component == number,
        _ => false,
    }
}

/// The component as a fact of this day enters it, if it does.
pub fn component_entered(
    number: u16,
    retired: &Option<Day>,
    day: Day,
    body: &FactBody,
) -> Option<Equipment>
    ensures value { result ≡ law.component_entered number retired.now day body.now }
{
    match *body {
        FactBody::Component {
            component,
            unit,
            kind,
            monomer,
            replaces,
            class,
        } => {
            if component == number {
                Some(Equipment {
                    component: number,
                    unit,
                    kind,
                    monomer,
                    replaces,
                    begin: day,
                    retired: *retired,
                    class,
                })
            } else {
                None
            }
        }
        _ => None,
    }
}

/// The process unit as a fact of this day enters it, if it does.
pub fn unit_entered(number: u8, day: Day, body: &FactBody) -> Option<UnitEntry>
    ensures value { result ≡ law.unit_entered number day body.now }
{
    match *body {
        FactBody::Unit { unit, older, name } => {
            if unit == number {
                Some(UnitEntry {
                    unit: number,
                    name,
                    startup: day,
                    older,
                })
            } else {
                None
            }
        }
        _ => None,
    }
}

/// The process unit in which a fact enters a component, and the component.
pub fn membership(body: &FactBody) -> Option<(u8, u16)>
    ensures value { result ≡ joined body.now }
{
    match *body {
        FactBody::Component {
            component,
            unit,
            ..
        } => Some((unit, component)),
        _ => None,
    }
}
