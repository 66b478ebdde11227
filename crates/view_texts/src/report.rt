ghost use Rattle.std.specs.Prelude.{◌≡◌, ◌+◌, ◌<◌, ◌++◌, IfOk, OnOk, OnErr, codes, length, string_bytes};
ghost use Rattle.std.specs.Fmt.{decimal};
ghost use Rattle.std.specs.List.{flat_map};
ghost use Rattle.list_words.specs.Ranges.{until};
ghost use Rattle.ldar_days.specs.Texts.{day_text};
ghost use Rattle.ldar_law.specs.Texts as law;

use crate::delays::put_delay_words;
use crate::lines::{put_end, shown};
use crate::words::{DayOrHyphen, name_word};
use fact_kinds::Memory;
use ldar_days::{Month, MonthText};
use ldar_law::{DelayLine, Report, Stop, Text};
use std::alloc::Global;

/// The number of months in a half.
const MONTHS: usize = 6;

/// The number of columns of a month.
const COLUMNS: usize = 6;

/// A text with the first line of a report.
fn begun(alloc: Global, name: &str, report: &Report) -> Result<String, Memory>
    ensures value { IfOk result (λ text. string_bytes text
        ≡ codes "report " ++ name.now ++ codes " unit " ++ decimal report.now.unit ++ codes " half " ++ decimal report.now.half
        ++ codes " as of " ++ day_text report.now.day ++ law.end_of_line) }
{
    let (unit, half, day) = (report.unit, report.half, report.day);
    format!(in alloc; "report {name} unit {unit} half {half} as of {day}\n")
}

/// Appends the line of a month, `place` months (from 0) after the first: for valves, pumps and compressors the number of
/// components with leaks and of those with late tags (40 CFR 60.487a(c)(2)).
fn put_month(text: &mut String, first: Month, cells: &[u32], place: usize) -> Result<(), Memory>
    requires within { place < 6 }
    requires whole { length cells.now ≡ 36 }
    ensures value { OnOk result (string_bytes text.new ≡ string_bytes text.old ++ law.month_line first cells.now place) }
{
    let month = MonthText {
        number: first.number() + place as u32,
    };
    let at = COLUMNS * place;
    let (valves, late_valves) = (cells[at], cells[at + 1]);
    let (pumps, late_pumps) = (cells[at + 2], cells[at + 3]);
    let (compressors, late_compressors) = (cells[at + 4], cells[at + 5]);
    write!(
        text,
        "{month} valves {valves} {late_valves} pumps {pumps} {late_pumps} compressors {compressors} {late_compressors}\n"
    )
}

/// Appends a line for each month of the half.
#[tactic(auto, using(list_words::proofs::RangeLemmas::ranges))]
fn put_months(text: &mut String, first: Month, cells: &[u32]) -> Result<(), Memory>
    requires whole { length cells.now ≡ 36 }
    ensures value { OnOk result (string_bytes text.new ≡ string_bytes text.old ++ flat_map (law.month_line first cells.now) (until 0 6)) }
{
    for place in 0..MONTHS {
        put_month(text, first, cells, place)?;
    }
    Ok(())
}

/// Appends the line of a delay (40 CFR 60.487a(c)(2)(xi)).
fn put_delay(text: &mut String, line: &DelayLine) -> Result<(), Memory>
    ensures value { OnOk result (string_bytes text.new ≡ string_bytes text.old ++ law.delay_line line.now) }
{
    text.push_str("delay ")?;
    put_delay_words(text, line)?;
    let closed = DayOrHyphen(line.closed);
    write!(text, " closed {closed}\n")
}

/// Appends a line for each delay.
fn put_delays(text: &mut String, lines: &[DelayLine]) -> Result<(), Memory>
    ensures value { OnOk result (string_bytes text.new ≡ string_bytes text.old ++ flat_map law.delay_line lines.now) }
{
    for line in lines {
        put_delay(text, line)?;
    }
    Ok(())
}

/// Appends the line of a process unit shutdown (40 CFR 60.487a(c)(3)).
fn put_stop(text: &mut String, stop: &Stop) -> Result<(), Memory>
    ensures value { OnOk result (string_bytes text.new ≡ string_bytes text.old ++ law.stop_line stop.now) }
{
    let (first, last) = (stop.first, stop.last);
    write!(text, "shutdown {first} {last}\n")
}

/// Appends a line for each shutdown.
fn put_stops(text: &mut String, stops: &[Stop]) -> Result<(), Memory>
    ensures value { OnOk result (string_bytes text.new ≡ string_bytes text.old ++ flat_map law.stop_line stops.now) }
{
    for stop in stops {
        put_stop(text, stop)?;
    }
    Ok(())
}

/// The text of a semiannual report (40 CFR 60.487a(c)); `first` is the first month of its half. Months past the calendar's
/// end are written with their own year.
pub fn report_text(alloc: Global, first: Month, report: &Report) -> Result<Text, Memory>
    ensures value { IfOk result (λ text. text ≡ law.report_text first report.now) }
{
    let (delays, stops) = (
        report.cells.delays.as_slice(),
        report.cells.stops.as_slice(),
    );
    let mut text = begun(alloc, name_word(&report.name), report)?;
    put_months(&mut text, first, report.cells.months.as_slice())?;
    put_delays(&mut text, delays)?;
    put_stops(&mut text, stops)?;
    put_end(&mut text, MONTHS + delays.len() + stops.len())?;
    Ok(shown(text))
}

/// Appends the text of a report. When out of memory, `text` is unchanged.
pub fn put_report(
    alloc: Global,
    first: Month,
    report: &Report,
    out: &mut Vec<u8>,
) -> Result<(), Memory>
    ensures value { OnOk result (out.new.items ≡ out.old.items ++ law.report_text first report.now) }
    ensures unchanged { OnErr result (out.new.items ≡ out.old.items) }
{
    let text = report_text(alloc, first, report)?;
    out.extend_from_slice(text.as_bytes())
}
