ghost use Rattle.std.specs.Prelude.{◌≡◌, ◌++◌, IfOk, OnOk, OnErr, string_bytes};
ghost use Rattle.std.specs.List.{flat_map};
ghost use Rattle.ldar_law.specs.Texts as law;

use crate::lines::{begun, put_end, shown};
use crate::words::{DayOrHyphen, Ground, UntilWhen};
use fact_kinds::Memory;
use ldar_days::Day;
use ldar_law::{DelayLine, Text};
use std::alloc::Global;

/// Appends the words of a delay (40 CFR 60.486a(c)), which a view and a report share, without the end of the line.
pub fn put_delay_words(text: &mut String, line: &DelayLine) -> Result<(), Memory>
    ensures value { OnOk result (string_bytes text.new ≡ string_bytes text.old
        ++ law.delay_words line.now.component line.now.detected line.now.delay line.now.until) }
{
    let (component, detected, signer) = (line.component, line.detected, line.delay.signer);
    let (why, until) = (Ground(line.delay), UntilWhen(line.until));
    let expected = DayOrHyphen(line.delay.expected);
    write!(
        text,
        "{component} detected {detected} ground {why} signer {signer} expected {expected} until {until}"
    )
}

/// Appends the line of a delay.
fn put_delay(text: &mut String, line: &DelayLine) -> Result<(), Memory>
    ensures value { OnOk result (string_bytes text.new ≡ string_bytes text.old ++ law.delayed_line line.now) }
{
    put_delay_words(text, line)?;
    text.push_str("\n")
}

/// Appends a line for each delay.
fn put_each(text: &mut String, lines: &[DelayLine]) -> Result<(), Memory>
    ensures value { OnOk result (string_bytes text.new ≡ string_bytes text.old ++ flat_map law.delayed_line lines.now) }
{
    for line in lines {
        put_delay(text, line)?;
    }
    Ok(())
}

/// The text of the delays view: the delayed repairs of a process unit (40 CFR 60.486a(c)), as known on a day.
pub fn delays_text(alloc: Global, unit: u16, day: Day, lines: &[DelayLine]) -> Result<Text, Memory>
    ensures value { IfOk result (λ text. text ≡ law.delays_text unit day lines.now) }
{
    let mut text = begun(alloc, "delays", unit, day)?;
    put_each(&mut text, lines)?;
    put_end(&mut text, lines.len())?;
    Ok(shown(text))
}

/// Appends the text of the delays view. When out of memory, `text` is unchanged.
pub fn put_delays(
    alloc: Global,
    unit: u16,
    day: Day,
    lines: &[DelayLine],
    out: &mut Vec<u8>,
) -> Result<(), Memory>
    ensures value { OnOk result (out.new.items ≡ out.old.items ++ law.delays_text unit day lines.now) }
    ensures unchanged { OnErr result (out.new.items ≡ out.old.items) }
{
    let text = delays_text(alloc, unit, day, lines)?;
    out.extend_from_slice(text.as_bytes())
}
