ghost use Rattle.std.specs.Prelude.{◌≡◌, ◌≤◌, IfOk};
ghost use Rattle.ldar_law.specs.declared.numbers.TheConstants.{LAST_FACT_DAY};
ghost use Rattle.ldar_law.specs.Texts as texts;
ghost use Rattle.ldar_law.specs.Units as units;
ghost use Rattle.office_views.specs.Asked.{AreTalliesDue};
ghost use Rattle.office_views.specs.Sources.{IsReady, facts_by};

use crate::due::duties_of_unit;
use crate::source::Source;
use crate::tag_lists::{delays_of_unit, tags_of_unit};
use fact_kinds::Memory;
use ldar_law::{Tally, Text, UnitEntry};
use view_texts::{delays_text, due_text, tags_text};

/// The text of the tags of a process unit; `unit` is the number that was asked.
pub fn tags_on(source: &Source<'_>, unit: u16, entry: &UnitEntry) -> Result<Text, Memory>
    requires ready { IsReady source.now entry.now.unit }
    ensures value { IfOk result (λ text. text ≡ texts.tags_text unit source.now.day (units.tags_of_unit entry.now source.now.day (facts_by source.now))) }
{
    let listed = tags_of_unit(source, entry)?;
    tags_text(source.alloc, unit, source.day, &listed)
}

/// The text of the delayed repairs of a process unit; `unit` is the number that was asked.
pub fn delays_on(source: &Source<'_>, unit: u16, entry: &UnitEntry) -> Result<Text, Memory>
    requires ready { IsReady source.now entry.now.unit }
    ensures value { IfOk result (λ text. text ≡ texts.delays_text unit source.now.day (units.delays_of_unit entry.now (facts_by source.now))) }
{
    let listed = delays_of_unit(source, entry)?;
    delays_text(source.alloc, unit, source.day, &listed)
}

/// The text of what has to be done at the components of a process unit; `unit` is the number that was asked.
pub fn due_on(
    source: &Source<'_>,
    unit: u16,
    entry: &UnitEntry,
    tallies: &[Tally],
) -> Result<Text, Memory>
    requires ready { IsReady source.now entry.now.unit }
    requires startup { entry.now.startup ≤ LAST_FACT_DAY }
    requires tallies { AreTalliesDue entry.now source.now.day (facts_by source.now) tallies.now }
    ensures value { IfOk result (λ text. text ≡ texts.due_text unit source.now.day (units.duties_of_unit entry.now source.now.day (facts_by source.now))) }
{
    let listed = duties_of_unit(source, entry, tallies)?;
    due_text(source.alloc, unit, source.day, &listed)
}
