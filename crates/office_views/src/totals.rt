ghost use Rattle.std.specs.Prelude.{◌≡◌, ◌+◌, ◌≤◌, true, length, IfOk};
ghost use Rattle.std.specs.List.{count_by};
ghost use Rattle.fact_store.specs.Kept.{facts_in};
ghost use Rattle.history_laws.specs.DayLaws.{up_to};
ghost use Rattle.ldar_law.specs.declared.numbers.TheConstants.{LAST_FACT_DAY};
ghost use Rattle.ldar_law.specs.Stirred.{stirred};
ghost use Rattle.ldar_law.specs.Tags.{is_open};
ghost use Rattle.office_views.specs.Asked.{AreTalliesDue};
ghost use Rattle.office_views.specs.Sources.{AreReady, IsReady, facts_by};
ghost use Rattle.office_views.specs.Totals.{totals_of_unit};
ghost use Rattle.office_views.specs.Viewed.{KeepsNotes};
ghost use Rattle.unit_summaries.specs.Sound.{Are, is_known, news_of};

use crate::due::duties_of_unit;
use crate::source::Source;
use crate::tag_lists::tags_of_unit;
use crate::tallied::tallies_due;
use component_register::Register;
use fact_kinds::Memory;
use fact_store::{FactStore, Steps};
use ldar_days::Day;
use ldar_law::{Tag, Tally, UnitEntry};
use std::alloc::Global;
use std::sync::ledger::Ledger;
use unit_summaries::Summaries;

/// How many lines the lists of a process unit have on a day.
#[derive(Clone, Copy, Debug, PartialEq, Eq)]
pub struct Totals {
    /// The lines of the tags.
    pub tags: usize,
    /// Those of tags that are not closed.
    pub open_tags: usize,
    /// The lines of what is due.
    pub duties: usize,
}

/// How many of these tags are not closed.
fn count_open(tags: &[Tag]) -> usize
    ensures value { result ≡ count_by is_open tags.now }
{
    tags.iter().filter(|tag| tag.is_open()).count()
}

/// The numbers of a process unit's tags that are shown on the day, and of its duties.
fn totals_on(source: &Source<'_>, unit: &UnitEntry, tallies: &[Tally]) -> Result<Totals, Memory>
    requires ready { IsReady source.now unit.now.unit }
    requires startup { unit.now.startup ≤ LAST_FACT_DAY }
    requires tallies { AreTalliesDue unit.now source.now.day (facts_by source.now) tallies.now }
    ensures value { IfOk result (λ totals. totals ≡ totals_of_unit unit.now source.now.day (facts_by source.now)) }
{
    let tags = tags_of_unit(source, unit)?;
    let duties = duties_of_unit(source, unit, tallies)?;
    Ok(Totals {
        tags: tags.len(),
        open_tags: count_open(&tags),
        duties: duties.len(),
    })
}

/// The numbers of a process unit's tags that are shown on a day, and of its duties, after the summaries of the unit are made up to date.
/// It is no view: no number of facts is noted.
pub(crate) fn totals_anew<L: Ledger>(
    alloc: Global,
    store: &FactStore,
    register: &Register,
    summaries: &mut Summaries,
    unit: &UnitEntry,
    day: Day,
    steps: &mut Steps<L>,
) -> Result<Totals, Memory>
    requires ready { AreReady store.now register.now summaries.old }
    requires known { is_known store.now.arrived unit.now.unit ≡ true }
    requires startup { unit.now.startup ≤ LAST_FACT_DAY }
    ensures value { IfOk result (λ totals. totals ≡ totals_of_unit unit.now day (up_to day (facts_in store.now))) }
    ensures sound { Are (facts_in store.now) store.now.arrived (length store.now.arrived) summaries.new }
    ensures answered { KeepsNotes summaries.old.answered summaries.new.answered }
    ensures counted { steps.new ≤ steps.old + stirred (facts_in store.now) (news_of store.now.arrived summaries.old unit.now.unit) unit.now.unit }
{
    summaries.renew(store, register, unit.unit, steps)?;
    let tallies = tallies_due(alloc, store, register, summaries, unit, day)?;
    let source = Source {
        alloc,
        store,
        register,
        summaries,
        day,
    };
    totals_on(&source, unit, &tallies)
}
