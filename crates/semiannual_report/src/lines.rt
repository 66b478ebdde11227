ghost use Rattle.std.specs.Prelude.{◌≡◌, ◌++◌, filter, option_to_list, IfOk, OnOk};
ghost use Rattle.std.specs.List.{filter_map, flat_map};
ghost use Rattle.ldar_law.specs.Reports as law;

use fact_kinds::Memory;
use ldar_days::Day;
use ldar_law::{DelayLine, Sheet, Stop, Tag};
use std::alloc::Global;

/// The line of a tag that has a delay which is not ignored. The tag must be detected by the half's last day and not be
/// closed before its first; otherwise `None`.
#[tactic(auto, unfolding(ldar_law::specs::Reports::delay_of))]
fn delay_of(first: Day, last: Day, tag: &Tag) -> Option<DelayLine>
    ensures value { result ≡ law.delay_of first last tag.now }
{
    let delay = tag.delay?;
    if tag.detected <= last && !is_closed_before(first, tag) {
        return Some(tag.line_on(delay));
    }
    None
}

fn is_closed_before(day: Day, tag: &Tag) -> bool
    ensures value { result ≡ law.is_closed_before day tag.now }
{
    match tag.closed {
        Some(closed) => closed < day,
        None => false,
    }
}

/// Appends an item, if there is one.
fn put<T: Drop>(items: &mut Vec<T>, item: Option<T>) -> Result<(), Memory>
    ensures value { OnOk result (items.new.items ≡ items.old.items ++ option_to_list item) }
{
    if let Some(item) = item {
        items.push(item)?;
    }
    Ok(())
}

/// Appends the lines of a component's tags.
#[tactic(auto, using(crate::proofs::PushedLemmas::given_pushed))]
fn put_delays(lines: &mut Vec<DelayLine>, first: Day, last: Day, tags: &[Tag]) -> Result<(), Memory>
    ensures value { OnOk result (lines.new.items ≡ lines.old.items ++ filter_map (law.delay_of first last) tags.now) }
{
    for tag in tags {
        put(lines, delay_of(first, last, tag))?;
    }
    Ok(())
}

/// The lines on delays in a half (40 CFR 60.487a(c)(2)(xi)).
pub fn delay_lines(
    alloc: Global,
    first: Day,
    last: Day,
    sheets: &[Sheet],
) -> Result<Vec<DelayLine>, Memory>
    ensures value { IfOk result (λ lines. lines.items ≡ flat_map (λ sheet. filter_map (law.delay_of first last) sheet.tags) sheets.now) }
{
    let mut lines = Vec::new(alloc);
    for sheet in sheets {
        put_delays(&mut lines, first, last, sheet.tags.as_slice())?;
    }
    Ok(lines)
}

/// The process unit shutdowns with at least one day in a half (40 CFR 60.487a(c)(3)).
pub fn stops_in(alloc: Global, first: Day, last: Day, stops: &[Stop]) -> Result<Vec<Stop>, Memory>
    ensures value { IfOk result (λ found. found.items ≡ filter (law.is_stop_in first last) stops.now) }
{
    let mut found = Vec::new(alloc);
    for stop in stops {
        if stop.is_in(first, last) {
            found.push(*stop)?;
        }
    }
    Ok(found)
}
