ghost use Rattle.std.specs.Prelude.{◌≡◌, ◌≤◌, ◌<◌, ◌^◌, ◌+◌, ◌++◌, [], ◌∷◌, List, ℕ, Option, length, take, drop, IfOk, IfSome, IsTrue, Some, option_map};
ghost use Rattle.std.specs.List.{AllByRecursion};
ghost use Rattle.ldar_days.specs.Calendar.{IsDay};
ghost use Rattle.fact_kinds.specs.declared.key.Key.{Key};
ghost use Rattle.fact_kinds.specs.Fields.{big_endian};
ghost use Rattle.ldar_law.specs.declared.delay.DelayEntry.{DelayEntry};
ghost use Rattle.ldar_law.specs.declared.delay.DelayLine.{DelayLine};
ghost use Rattle.ldar_law.specs.declared.delay.Stop.{Stop};
ghost use Rattle.ldar_law.specs.declared.delay.Until.{Until};
ghost use Rattle.report_table.specs.CellBytes as spell;
ghost use Rattle.report_table.specs.Ranges.{IsDayOrNone, IsKey, IsDelay, IsUntil, IsLine, IsStop, AreMonths};

use crate::item::put;
use fact_kinds::{Key, Memory};
use ldar_days::Day;
use ldar_law::{DelayEntry, DelayLine, MonthCells, Stop, Until};
use std::alloc::Global;

/// The number of numbers in a report.
const PLACES: usize = 36;

/// The bytes of a delay line.
const LINE: usize = 26;

/// The bytes of a shutdown.
const STOP: usize = 4;

/// The 36 numbers that these bytes spell, if the length is right.
pub(crate) fn months_of(bytes: &[u8]) -> Option<MonthCells>
    ensures value { IfSome result (λ months. bytes.now ≡ spell.months_bytes months) }
    ensures reads_back { (months : List ℕ) → AreMonths months → bytes.now ≡ spell.months_bytes months → result ≡ Some months }
{
    if bytes.len() != 4 * PLACES {
        return None;
    }
    let mut numbers = [0; PLACES];
    for place in 0..PLACES {
        numbers[place] = four_at(bytes, 4 * place);
    }
    Some(MonthCells::new(numbers))
}

/// The delay lines that these bytes spell, if they do.
pub(crate) fn delays_of(alloc: Global, bytes: &[u8]) -> Result<Option<Vec<DelayLine>>, Memory>
    ensures value { IfOk result (λ found. IfSome found (λ lines. bytes.now ≡ spell.delays_bytes lines.items)) }
    ensures reads_back { (lines : List DelayLine) → AllByRecursion IsLine lines → bytes.now ≡ spell.delays_bytes lines
        → IfOk result (λ found. option_map (λ read. read.items) found ≡ Some lines) }
{
    if bytes.len() % LINE != 0 {
        return Ok(None);
    }
    let mut lines = Vec::new(alloc);
    for at in 0..bytes.len() / LINE {
        if !add_line(&mut lines, bytes, LINE * at)? {
            return Ok(None);
        }
    }
    Ok(Some(lines))
}

/// The shutdowns that these bytes spell, if they do.
pub(crate) fn stops_of(alloc: Global, bytes: &[u8]) -> Result<Option<Vec<Stop>>, Memory>
    ensures value { IfOk result (λ found. IfSome found (λ stops. bytes.now ≡ spell.stops_bytes stops.items)) }
    ensures reads_back { (stops : List Stop) → AllByRecursion IsStop stops → bytes.now ≡ spell.stops_bytes stops
        → IfOk result (λ found. option_map (λ read. read.items) found ≡ Some stops) }
{
    if bytes.len() % STOP != 0 {
        return Ok(None);
    }
    let mut stops = Vec::new(alloc);
    for at in 0..bytes.len() / STOP {
        let stop = stop_at(bytes, STOP * at);
        if stop.is_none() {
            return Ok(None);
        }
        put(&mut stops, stop)?;
    }
    Ok(Some(stops))
}

/// Adds the line at a place, if there is one.
fn add_line(lines: &mut Vec<DelayLine>, bytes: &[u8], at: usize) -> Result<bool, Memory>
    requires within { at + 26 ≤ length bytes.now }
    requires so_far { take at bytes.now ≡ spell.delays_bytes lines.old.items }
    ensures more { IfOk result (λ added. IsTrue added → take (at + 26) bytes.now ≡ spell.delays_bytes lines.new.items) }
    ensures reads_back { (line : DelayLine) → IsLine line → take 26 (drop at bytes.now) ≡ spell.line_bytes line
        → IfOk result (λ added. IsTrue added × (lines.new.items ≡ lines.old.items ++ line ∷ [])) }
{
    let Some(detected) = day_at(bytes, at + 2) else {
        return Ok(false);
    };
    let Some(delay) = delay_at(bytes, at + 4) else {
        return Ok(false);
    };
    let Some(until) = until_at(bytes, at + 21) else {
        return Ok(false);
    };
    let Some(closed) = day_or_none_at(bytes, at + 24) else {
        return Ok(false);
    };
    lines.push(DelayLine {
        component: two_at(bytes, at),
        detected,
        delay,
        until,
        closed,
    })?;
    Ok(true)
}

fn delay_at(bytes: &[u8], at: usize) -> Option<DelayEntry>
    requires within { at + 17 ≤ length bytes.now }
    ensures value { IfSome result (λ delay. take 17 (drop at bytes.now) ≡ spell.delay_bytes delay) }
    ensures reads_back { (given : DelayEntry) → IsDelay given → take 17 (drop at bytes.now) ≡ spell.delay_bytes given → result ≡ Some given }
{
    Some(DelayEntry {
        key: key_at(bytes, at)?,
        ground: one_at(bytes, at + 12),
        signer: two_at(bytes, at + 13),
        expected: day_or_none_at(bytes, at + 15)?,
    })
}

/// The shutdown at a place, if there is one.
fn stop_at(bytes: &[u8], at: usize) -> Option<Stop>
    requires within { at + 4 ≤ length bytes.now }
    ensures value { IfSome result (λ stop. take 4 (drop at bytes.now) ≡ spell.stop_bytes stop) }
    ensures reads_back { (given : Stop) → IsStop given → take 4 (drop at bytes.now) ≡ spell.stop_bytes given → result ≡ Some given }
{
    Some(Stop {
        first: day_at(bytes, at)?,
        last: day_at(bytes, at + 2)?,
    })
}

fn one_at(bytes: &[u8], at: usize) -> u8
    requires within { at + 1 ≤ length bytes.now }
    ensures value { take 1 (drop at bytes.now) ≡ big_endian 1 result }
    ensures reads_back { (given : ℕ) → given < 2 ^ 8 → take 1 (drop at bytes.now) ≡ big_endian 1 given → result ≡ given }
{
    bytes[at]
}

fn two_at(bytes: &[u8], at: usize) -> u16
    requires within { at + 2 ≤ length bytes.now }
    ensures value { take 2 (drop at bytes.now) ≡ big_endian 2 result }
    ensures reads_back { (given : ℕ) → given < 2 ^ 16 → take 2 (drop at bytes.now) ≡ big_endian 2 given → result ≡ given }
{
    u16::from_be_bytes([bytes[at], bytes[at + 1]])
}

fn four_at(bytes: &[u8], at: usize) -> u32
    requires within { at + 4 ≤ length bytes.now }
    ensures value { take 4 (drop at bytes.now) ≡ big_endian 4 result }
    ensures reads_back { (given : ℕ) → given < 2 ^ 32 → take 4 (drop at bytes.now) ≡ big_endian 4 given → result ≡ given }
{
    let high = two_at(bytes, at);
    let low = two_at(bytes, at + 2);
    u32::from(high) * 65_536 + u32::from(low)
}

fn day_at(bytes: &[u8], at: usize) -> Option<Day>
    requires within { at + 2 ≤ length bytes.now }
    ensures value { IfSome result (λ day. take 2 (drop at bytes.now) ≡ big_endian 2 day) }
    ensures reads_back { (given : ℕ) → IsDay given → take 2 (drop at bytes.now) ≡ big_endian 2 given → result ≡ Some given }
{
    Day::of_number(u32::from(two_at(bytes, at)))
}

/// A day, or none for 0; `None` for any other number.
fn day_or_none_at(bytes: &[u8], at: usize) -> Option<Option<Day>>
    requires within { at + 2 ≤ length bytes.now }
    ensures value { IfSome result (λ day. take 2 (drop at bytes.now) ≡ spell.day_bytes day) }
    ensures reads_back { (given : Option ℕ) → IsDayOrNone given → take 2 (drop at bytes.now) ≡ spell.day_bytes given → result ≡ Some given }
{
    if two_at(bytes, at) == 0 {
        return Some(None);
    }
    Some(Some(day_at(bytes, at)?))
}

fn key_at(bytes: &[u8], at: usize) -> Option<Key>
    requires within { at + 12 ≤ length bytes.now }
    ensures value { IfSome result (λ key. take 12 (drop at bytes.now) ≡ spell.key_bytes key) }
    ensures reads_back { (given : Key) → IsKey given → take 12 (drop at bytes.now) ≡ spell.key_bytes given → result ≡ Some given }
{
    Some(Key {
        day: day_at(bytes, at)?,
        minute: two_at(bytes, at + 2),
        handheld: two_at(bytes, at + 4),
        number: four_at(bytes, at + 6),
        index: two_at(bytes, at + 10),
    })
}

/// The due day of a repair; the kind is followed by a day only if it is a date.
fn until_at(bytes: &[u8], at: usize) -> Option<Until>
    requires within { at + 3 ≤ length bytes.now }
    ensures value { IfSome result (λ until. take 3 (drop at bytes.now) ≡ spell.until_bytes until) }
    ensures reads_back { (given : Until) → IsUntil given → take 3 (drop at bytes.now) ≡ spell.until_bytes given → result ≡ Some given }
{
    if bytes[at] == 0 {
        return Some(Until::Date(day_at(bytes, at + 1)?));
    }
    if two_at(bytes, at + 1) != 0 {
        return None;
    }
    match bytes[at] {
        1 => Some(Until::Shutdown),
        2 => Some(Until::WhileIsolated),
        3 => Some(Until::NoDate),
        _ => None,
    }
}
