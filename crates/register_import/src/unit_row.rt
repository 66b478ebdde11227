ghost use Rattle.std.specs.Prelude.{◌≡◌};
ghost use Rattle.toml.specs.Data.{as_table};
ghost use Rattle.toml.specs.View.{view};
ghost use Rattle.register_import.specs.UnitRows as spec;

use crate::members::{day, flag, has_only, name, unit_number};
use fact_kinds::{Fact, FactBody};
use toml::Value;

/// The fact of an element, or `None` if the element is bad.
#[tactic(auto, unfolding(crate::specs::UnitRows::unit_of))]
pub(crate) fn unit_of(element: &Value) -> Option<Fact>
    ensures value { result ≡ spec.unit_of (view element.now) }
{
    if !has_unit_keys(element) {
        return None;
    }
    let unit = unit_number(element.get("number"))?;
    let name = name(element.get("name"))?;
    let day = day(element.get("startup"))?;
    let older = flag(element.get("older"))?;
    Some(Fact {
        day,
        minute: 0,
        body: FactBody::Unit { unit, older, name },
    })
}

// Whether an element is a table with only these keys.
fn has_unit_keys(element: &Value) -> bool
    ensures { result ≡ spec.has_unit_keys (as_table (view element.now)) }
{
    match element.as_table() {
        Some(table) => has_only(table, &["number", "name", "startup", "older"]),
        None => false,
    }
}
