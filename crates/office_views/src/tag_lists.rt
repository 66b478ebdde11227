ghost use Rattle.std.specs.Prelude.{◌≡◌, [], ◌∷◌, ◌++◌, IfOk, OnOk, filter};
ghost use Rattle.ldar_law.specs.Tags as shown;
ghost use Rattle.ldar_law.specs.Units as law;
ghost use Rattle.unit_summaries.specs.Known.{AreInOrder, IsInOrder, all_in_law, in_law};
ghost use Rattle.office_views.specs.Sources.{IsReady, facts_by};

use crate::members::unit_of;
use crate::source::Source;
use fact_kinds::Memory;
use ldar_days::Day;
use ldar_law::{DelayLine, Stop, Tag, UnitEntry};
use std::alloc::Global;
use unit_summaries::{KnownOn, add, tags_of};

/// Adds those of some tags that are shown on a day.
fn add_shown(tags: &mut Vec<Tag>, day: Day, more: &[Tag]) -> Result<(), Memory>
    ensures put { OnOk result (tags.new.items ≡ tags.old.items ++ filter (shown.is_shown day) more.now) }
{
    for tag in more {
        if tag.is_shown(day) {
            tags.push(*tag)?;
        }
    }
    Ok(())
}

/// Adds the tags of a component that are shown on a day, by the shutdowns of its process unit.
fn add_tags(
    alloc: Global,
    tags: &mut Vec<Tag>,
    day: Day,
    component: &KnownOn<'_>,
    stops: &[Stop],
) -> Result<(), Memory>
    requires ordered { IsInOrder component.now }
    ensures put { OnOk result (tags.new.items ≡ tags.old.items ++ law.tag_list day (in_law stops.now component.now ∷ [])) }
{
    let own = tags_of(alloc, component, stops)?;
    add_shown(tags, day, &own)
}

/// The tags of some components that are shown on a day, by the shutdowns of their process unit.
fn tags_shown(
    alloc: Global,
    day: Day,
    components: &[KnownOn<'_>],
    stops: &[Stop],
) -> Result<Vec<Tag>, Memory>
    requires ordered { AreInOrder components.now }
    ensures value { IfOk result (λ tags. tags.items ≡ law.tag_list day (all_in_law stops.now components.now)) }
{
    let mut tags = Vec::new(alloc);
    for component in components {
        add_tags(alloc, &mut tags, day, component, stops)?;
    }
    Ok(tags)
}

/// The tags of a process unit that are shown on the day, by component and detection (40 CFR 60.486a(b)).
pub fn tags_of_unit(source: &Source<'_>, unit: &UnitEntry) -> Result<Vec<Tag>, Memory>
    requires ready { IsReady source.now unit.now.unit }
    ensures value { IfOk result (λ tags. tags.items ≡ law.tags_of_unit unit.now source.now.day (facts_by source.now)) }
{
    let known = unit_of(source, unit.unit)?;
    tags_shown(source.alloc, source.day, &known.components, known.stops)
}

/// The line on a tag, if it is open and its repair is delayed (40 CFR 60.486a(c)).
fn line_on_open(tag: &Tag) -> Option<DelayLine>
    ensures value { result ≡ shown.line_on_open tag.now }
{
    if !tag.is_open() {
        return None;
    }
    match tag.standing_delay() {
        Some(delay) => Some(tag.line_on(delay)),
        None => None,
    }
}

/// Adds the lines on those of some tags that are open and whose repair is delayed.
#[tactic(auto, using(unit_summaries::proofs::ListLemmas::given_pushed))]
fn add_lines_on(lines: &mut Vec<DelayLine>, tags: &[Tag]) -> Result<(), Memory>
    ensures put { OnOk result (lines.new.items ≡ lines.old.items ++ shown.delay_lines tags.now) }
{
    for tag in tags {
        add(lines, &line_on_open(tag))?;
    }
    Ok(())
}

/// Adds the lines on the delayed repairs of a component, by the shutdowns of its process unit.
fn add_lines(
    alloc: Global,
    lines: &mut Vec<DelayLine>,
    component: &KnownOn<'_>,
    stops: &[Stop],
) -> Result<(), Memory>
    requires ordered { IsInOrder component.now }
    ensures put { OnOk result (lines.new.items ≡ lines.old.items ++ law.delay_list (in_law stops.now component.now ∷ [])) }
{
    let own = tags_of(alloc, component, stops)?;
    add_lines_on(lines, &own)
}

/// The lines on the delayed repairs of some components, by the shutdowns of their process unit.
fn delay_lines(
    alloc: Global,
    components: &[KnownOn<'_>],
    stops: &[Stop],
) -> Result<Vec<DelayLine>, Memory>
    requires ordered { AreInOrder components.now }
    ensures value { IfOk result (λ lines. lines.items ≡ law.delay_list (all_in_law stops.now components.now)) }
{
    let mut lines = Vec::new(alloc);
    for component in components {
        add_lines(alloc, &mut lines, component, stops)?;
    }
    Ok(lines)
}

/// The lines on the delayed repairs of a process unit, by component and detection (40 CFR 60.486a(c)).
pub fn delays_of_unit(source: &Source<'_>, unit: &UnitEntry) -> Result<Vec<DelayLine>, Memory>
    requires ready { IsReady source.now unit.now.unit }
    ensures value { IfOk result (λ lines. lines.items ≡ law.delays_of_unit unit.now (facts_by source.now)) }
{
    let known = unit_of(source, unit.unit)?;
    delay_lines(source.alloc, &known.components, known.stops)
}
