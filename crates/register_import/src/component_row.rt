ghost use Rattle.std.specs.Prelude.{◌≡◌};
ghost use Rattle.csv.specs.Records.{fields_of};
ghost use Rattle.register_import.specs.ComponentRows as spec;

use crate::fields::{class, flag, kind};
use csv::ByteRecord;
use csv_rows::{day, holds, number};
use fact_kinds::{Designation, Fact, FactBody};

/// The fact of a record, or `None` if the record is bad.
#[tactic(auto, unfolding(crate::specs::ComponentRows::component_of))]
pub(crate) fn component_of(row: &ByteRecord) -> Option<Fact>
    ensures value { result ≡ spec.component_of (fields_of row.now) }
{
    if row.len() != 10 {
        return None;
    }
    let component = number(row.get(0), 1, 60_000)? as u16;
    let unit = number(row.get(1), 1, 64)? as u8;
    let kind = kind(row.get(2))?;
    let class = class(row.get(3), row.get(4), row.get(5), row.get(6))?;
    let monomer = flag(row.get(7))?;
    let replaces = flag(row.get(8))?;
    let day = day(row.get(9))?;
    Some(Fact {
        day,
        minute: 0,
        body: FactBody::Component {
            component,
            unit,
            kind,
            monomer,
            replaces,
            class,
        },
    })
}

/// Whether the fact enters a difficult-to-monitor component.
pub(crate) fn is_difficult(fact: &Fact) -> bool
    ensures value { result ≡ spec.is_difficult fact.now }
{
    matches!(fact.body, FactBody::Component { class, .. } if class.designation == Designation::Difficult)
}

/// Whether the record is the header of a file of components, which names the columns.
pub(crate) fn is_header(row: &ByteRecord) -> bool
    ensures value { result ≡ spec.is_header (fields_of row.now) }
{
    row.len() == 10 && begins_header(row) && ends_header(row)
}

// Whether the first five fields are the names of their columns.
fn begins_header(row: &ByteRecord) -> bool
    ensures value { result ≡ spec.begins_header (fields_of row.now) }
{
    holds(row.get(0), "component")
        && holds(row.get(1), "unit")
        && holds(row.get(2), "kind")
        && holds(row.get(3), "service")
        && holds(row.get(4), "designation")
}

// Whether the last five fields are the names of their columns.
fn ends_header(row: &ByteRecord) -> bool
    ensures value { result ≡ spec.ends_header (fields_of row.now) }
{
    holds(row.get(5), "plan")
        && holds(row.get(6), "month")
        && holds(row.get(7), "monomer")
        && holds(row.get(8), "replaces")
        && holds(row.get(9), "begin")
}
