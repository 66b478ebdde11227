ghost use Rattle.std.specs.Prelude.{◌≡◌};
ghost use Rattle.std.specs.List.{list_any};
ghost use Rattle.fact_kinds.specs.Named as named;
ghost use Rattle.fact_kinds.specs.Named.{is_numbered};
ghost use Rattle.unit_summaries.specs.Rows.{Stales};

use crate::summary::{Summary, UnitSummary};
use crate::table::Table;
use fact_kinds::{Fact, FactBody, component_of, unit_of};

/// The process unit that a fact names, as the number of a row.
fn unit_number(body: &FactBody) -> Option<u16>
    ensures value { result ≡ named.unit_of body.now }
{
    unit_of(body).map(u16::from)
}

/// The rows of the components and of the process units that some facts name are no more up to date.
pub fn make_stale_by_names(
    components: &mut Table<Summary>,
    units: &mut Table<UnitSummary>,
    facts: &[Fact],
)
    ensures components { Stales (λ n. list_any (λ fact. is_numbered (named.component_of fact.body) n) facts.now) components.old components.new }
    ensures units { Stales (λ u. list_any (λ fact. is_numbered (named.unit_of fact.body) u) facts.now) units.old units.new }
{
    for fact in facts {
        components.make_stale(component_of(&fact.body));
        units.make_stale(unit_number(&fact.body));
    }
}
