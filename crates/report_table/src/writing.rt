ghost use Rattle.std.specs.Prelude.{◌≡◌, ◌<◌, ◌^◌, ◌++◌, IfOk, OnOk};
ghost use Rattle.std.specs.List.{AllByRecursion};
ghost use Rattle.fact_kinds.specs.Fields.{big_endian};
ghost use Rattle.report_table.specs.CellBytes as spell;
ghost use Rattle.report_table.specs.Ranges.{IsLine, IsStop};

use fact_kinds::{Key, Memory};
use ldar_days::Day;
use ldar_law::{DelayEntry, DelayLine, Stop, Until};
use std::alloc::Global;

/// The 36 numbers of a report, each in four bytes.
pub(crate) fn months_bytes(alloc: Global, months: &[u32]) -> Result<Vec<u8>, Memory>
    ensures value { IfOk result (λ written. written.items ≡ spell.months_bytes months.now) }
    ensures kept { OnOk result (AllByRecursion (λ n. n < 2 ^ 32) months.now) }
{
    let mut out = Vec::new(alloc);
    for number in months {
        number_kept(*number);
        put_four(&mut out, *number)?;
    }
    Ok(out)
}

/// The lines of delayed repairs, each in 26 bytes.
pub(crate) fn delays_bytes(alloc: Global, lines: &[DelayLine]) -> Result<Vec<u8>, Memory>
    ensures value { IfOk result (λ written. written.items ≡ spell.delays_bytes lines.now) }
    ensures kept { OnOk result (AllByRecursion IsLine lines.now) }
{
    let mut out = Vec::new(alloc);
    for line in lines {
        line_kept(*line);
        put_line(&mut out, line)?;
    }
    Ok(out)
}

/// The process unit shutdowns, each in four bytes.
pub(crate) fn stops_bytes(alloc: Global, stops: &[Stop]) -> Result<Vec<u8>, Memory>
    ensures value { IfOk result (λ written. written.items ≡ spell.stops_bytes stops.now) }
    ensures kept { OnOk result (AllByRecursion IsStop stops.now) }
{
    let mut out = Vec::new(alloc);
    for stop in stops {
        stop_kept(*stop);
        put_stop(&mut out, stop)?;
    }
    Ok(out)
}

/// A number of its type fits into its bytes, and so do the fields of a line and a shutdown.
fn number_kept(number: u32)
    ensures kept { number < 2 ^ 32 }
{}

fn line_kept(line: DelayLine)
    ensures kept { IsLine line }
{}

fn stop_kept(stop: Stop)
    ensures kept { IsStop stop }
{}

fn put_one(out: &mut Vec<u8>, number: u8) -> Result<(), Memory>
    ensures put { OnOk result (out.new.items ≡ out.old.items ++ big_endian 1 number) }
{
    out.extend_from_slice(&number.to_be_bytes())
}

fn put_two(out: &mut Vec<u8>, number: u16) -> Result<(), Memory>
    ensures put { OnOk result (out.new.items ≡ out.old.items ++ big_endian 2 number) }
{
    out.extend_from_slice(&number.to_be_bytes())
}

fn put_four(out: &mut Vec<u8>, number: u32) -> Result<(), Memory>
    ensures put { OnOk result (out.new.items ≡ out.old.items ++ big_endian 4 number) }
{
    out.extend_from_slice(&number.to_be_bytes())
}

fn put_day(out: &mut Vec<u8>, day: Day) -> Result<(), Memory>
    ensures put { OnOk result (out.new.items ≡ out.old.items ++ big_endian 2 day) }
{
    put_two(out, day.number() as u16)
}

/// Adds a day, or 0 for none.
fn put_day_or_none(out: &mut Vec<u8>, day: Option<Day>) -> Result<(), Memory>
    ensures put { OnOk result (out.new.items ≡ out.old.items ++ spell.day_bytes day) }
{
    match day {
        Some(day) => put_day(out, day),
        None => put_two(out, 0),
    }
}

fn put_key(out: &mut Vec<u8>, key: Key) -> Result<(), Memory>
    ensures put { OnOk result (out.new.items ≡ out.old.items ++ spell.key_bytes key) }
{
    put_day(out, key.day)?;
    put_two(out, key.minute)?;
    put_two(out, key.handheld)?;
    put_four(out, key.number)?;
    put_two(out, key.index)
}

fn put_delay(out: &mut Vec<u8>, delay: &DelayEntry) -> Result<(), Memory>
    ensures put { OnOk result (out.new.items ≡ out.old.items ++ spell.delay_bytes delay.now) }
{
    put_key(out, delay.key)?;
    put_one(out, delay.ground)?;
    put_two(out, delay.signer)?;
    put_day_or_none(out, delay.expected)
}

/// Adds the kind of a repair's due day, and the day or 0.
fn put_until(out: &mut Vec<u8>, until: Until) -> Result<(), Memory>
    ensures put { OnOk result (out.new.items ≡ out.old.items ++ spell.until_bytes until) }
{
    match until {
        Until::Date(day) => {
            put_one(out, 0)?;
            put_day(out, day)
        }
        Until::Shutdown => put_undated(out, 1),
        Until::WhileIsolated => put_undated(out, 2),
        Until::NoDate => put_undated(out, 3),
    }
}

fn put_undated(out: &mut Vec<u8>, kind: u8) -> Result<(), Memory>
    ensures put { OnOk result (out.new.items ≡ out.old.items ++ (big_endian 1 kind ++ big_endian 2 0)) }
{
    put_one(out, kind)?;
    put_two(out, 0)
}

fn put_line(out: &mut Vec<u8>, line: &DelayLine) -> Result<(), Memory>
    ensures put { OnOk result (out.new.items ≡ out.old.items ++ spell.line_bytes line.now) }
{
    put_two(out, line.component)?;
    put_day(out, line.detected)?;
    put_delay(out, &line.delay)?;
    put_until(out, line.until)?;
    put_day_or_none(out, line.closed)?;
    Ok(())
}

fn put_stop(out: &mut Vec<u8>, stop: &Stop) -> Result<(), Memory>
    ensures put { OnOk result (out.new.items ≡ out.old.items ++ spell.stop_bytes stop.now) }
{
    put_day(out, stop.first)?;
    put_day(out, stop.last)
}
