ghost use Rattle.std.specs.Prelude.{◌≡◌, ◌++◌, IfOk, OnOk, OnErr, string_bytes};
ghost use Rattle.std.specs.List.{flat_map};
ghost use Rattle.ldar_law.specs.Texts as law;

use crate::lines::{begun, put_end, shown};
use crate::words::Cause;
use fact_kinds::Memory;
use ldar_days::Day;
use ldar_law::{Duty, Text};
use std::alloc::Global;
use std::fmt;

/// The state of a duty on a day.
#[derive(Clone, Copy)]
struct State {
    day: Day,
    duty: Duty,
}

impl fmt::Display for State {
    ghost use Rattle.std.specs.Prelude.{Some};
    ghost use Rattle.ldar_law.specs.Texts.{state_text};

    ghost output = { λ s. Some (state_text s.day s.duty) };

    fn fmt<W: fmt::Write>(&self, f: &mut fmt::Formatter<W>) -> fmt::Result {
        match self.duty.met {
            Some(key) => {
                let day = key.day;
                write!(f, "done {day}")
            }
            None => if self.day <= self.duty.due {
                write!(f, "open")
            } else {
                write!(f, "missed")
            },
        }
    }
}

/// Appends the line of a duty.
fn put_duty(text: &mut String, day: Day, duty: &Duty) -> Result<(), Memory>
    ensures value { OnOk result (string_bytes text.new ≡ string_bytes text.old ++ law.due_line day duty.now) }
{
    let (component, cause, due) = (duty.component, Cause(duty.cause), duty.due);
    let state = State { day, duty: *duty };
    write!(text, "{component} {cause} {due} {state}\n")
}

/// Appends a line for each duty.
fn put_each(text: &mut String, day: Day, duties: &[Duty]) -> Result<(), Memory>
    ensures value { OnOk result (string_bytes text.new ≡ string_bytes text.old ++ flat_map (law.due_line day) duties.now) }
{
    for duty in duties {
        put_duty(text, day, duty)?;
    }
    Ok(())
}

/// The text of the due view: the duties at the components of a process unit, as known on a day.
pub fn due_text(alloc: Global, unit: u16, day: Day, duties: &[Duty]) -> Result<Text, Memory>
    ensures value { IfOk result (λ text. text ≡ law.due_text unit day duties.now) }
{
    let mut text = begun(alloc, "due", unit, day)?;
    put_each(&mut text, day, duties)?;
    put_end(&mut text, duties.len())?;
    Ok(shown(text))
}

/// Appends the text of the due view. When out of memory, `text` is unchanged.
pub fn put_due(
    alloc: Global,
    unit: u16,
    day: Day,
    duties: &[Duty],
    out: &mut Vec<u8>,
) -> Result<(), Memory>
    ensures value { OnOk result (out.new.items ≡ out.old.items ++ law.due_text unit day duties.now) }
    ensures unchanged { OnErr result (out.new.items ≡ out.old.items) }
{
    let text = due_text(alloc, unit, day, duties)?;
    out.extend_from_slice(text.as_bytes())
}
