ghost use Rattle.std.specs.Prelude.{◌≡◌, ◌+◌, ◌≤◌, Some, true, length};
ghost use Rattle.std.specs.Result.{is_ok};
ghost use Rattle.fact_store.specs.Kept.{facts_in};
ghost use Rattle.history_laws.specs.DayLaws.{up_to};
ghost use Rattle.ldar_law.specs.declared.numbers.TheConstants.{LAST_FACT_DAY};
ghost use Rattle.ldar_law.specs.Equipment.{unit_entry_of};
ghost use Rattle.ldar_law.specs.Shown as law;
ghost use Rattle.ldar_law.specs.Stirred.{stirred};
ghost use Rattle.office_views.specs.Answers.{IsShown, IsView, in_text};
ghost use Rattle.office_views.specs.Asked.{AreTalliesOf, IsWhole, view_unit};
ghost use Rattle.office_views.specs.Sources.{AreReady, IsReady, facts_from};
ghost use Rattle.office_views.specs.Viewed.{Notes};
ghost use Rattle.unit_summaries.specs.Sound.{Are, is_known, news_of};

use crate::answers::{delays_on, due_on, tags_on};
use crate::asked::view_day;
use crate::reports::half_text;
use crate::routes::route_on;
use crate::shares::quarter_text;
use crate::source::Source;
use crate::tallied::tallies_shown;
use component_register::Register;
use fact_kinds::Memory;
use fact_store::{FactStore, Steps};
use ldar_law::{Request, Tally, Text, UnitEntry};
use std::alloc::Global;
use std::sync::ledger::Ledger;
use unit_summaries::Summaries;

/// The text of a view of a process unit that has all that the view asks. `tallies` are the counts of quarters that it needs.
fn answer(
    source: &Source<'_>,
    entry: &UnitEntry,
    request: &Request,
    tallies: &[Tally],
) -> Result<Text, Memory>
    requires view { IsView request.now }
    requires day { source.now.day ≡ law.view_day request.now }
    requires ready { IsReady source.now entry.now.unit }
    requires entered { unit_entry_of (view_unit request.now) (up_to (law.view_day request.now) (facts_from source.now)) ≡ Some entry.now }
    requires startup { entry.now.startup ≤ LAST_FACT_DAY }
    requires whole { IsWhole request.now entry.now }
    requires tallies { AreTalliesOf request.now entry.now (up_to (law.view_day request.now) (facts_from source.now)) tallies.now }
    ensures value { IsShown (in_text result) (law.view_of request.now (up_to (law.view_day request.now) (facts_from source.now))) }
{
    match request {
        Request::Due { unit, .. } => due_on(source, *unit, entry, tallies),
        Request::Tags { unit, .. } => tags_on(source, *unit, entry),
        Request::Delays { unit, .. } => delays_on(source, *unit, entry),
        Request::Route { unit, stops, .. } => route_on(source, *unit, entry, *stops, tallies),
        Request::Percent { quarter, .. } => quarter_text(source, entry, *quarter, tallies),
        Request::Report { half, .. } => half_text(source, entry, *half),
        Request::Sync(_) => unreachable!(),
    }
}

/// The text of a view, after the summaries of its process unit are made up to date. If there is a text, the number of facts is noted
/// for the unit.
pub fn text_anew<L: Ledger>(
    alloc: Global,
    store: &FactStore,
    register: &Register,
    summaries: &mut Summaries,
    entry: &UnitEntry,
    request: &Request,
    facts: usize,
    steps: &mut Steps<L>,
) -> Result<Text, Memory>
    requires view { IsView request.now }
    requires ready { AreReady store.now register.now summaries.old }
    requires known { is_known store.now.arrived entry.now.unit ≡ true }
    requires facts { facts ≡ length store.now.arrived }
    requires entered { unit_entry_of (view_unit request.now) (up_to (law.view_day request.now) (facts_in store.now)) ≡ Some entry.now }
    requires startup { entry.now.startup ≤ LAST_FACT_DAY }
    requires whole { IsWhole request.now entry.now }
    ensures value { IsShown (in_text result) (law.view_of request.now (up_to (law.view_day request.now) (facts_in store.now))) }
    ensures sound { Are (facts_in store.now) store.now.arrived (length store.now.arrived) summaries.new }
    ensures answered { Notes (is_ok result) entry.now.unit facts summaries.old.answered summaries.new.answered }
    ensures counted { steps.new ≤ steps.old + stirred (facts_in store.now) (news_of store.now.arrived summaries.old entry.now.unit) entry.now.unit }
{
    summaries.renew(store, register, entry.unit, steps)?;
    let tallies = tallies_shown(alloc, store, register, summaries, entry, request)?;
    let source = Source {
        alloc,
        store,
        register,
        summaries,
        day: view_day(request),
    };
    let text = answer(&source, entry, request, &tallies)?;
    summaries.answer(entry.unit, facts);
    Ok(text)
}
