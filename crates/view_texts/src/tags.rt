ghost use Rattle.std.specs.Prelude.{◌≡◌, ◌++◌, IfOk, OnOk, OnErr, string_bytes};
ghost use Rattle.std.specs.List.{flat_map};
ghost use Rattle.ldar_law.specs.Texts as law;

use crate::lines::{begun, put_end, shown};
use crate::words::{DayOrHyphen, UntilWhen};
use fact_kinds::Memory;
use ldar_days::Day;
use ldar_law::{Tag, Text};
use std::alloc::Global;
use std::fmt;

/// Whether the identification of a leak may be removed (40 CFR 60.482-1a).
#[derive(Clone, Copy)]
struct Mark(bool);

impl fmt::Display for Mark {
    ghost use Rattle.std.specs.Prelude.{Some, codes, if◌then◌else◌};

    ghost output = { λ m. Some (if m.0 then codes "removable" else codes "tagged") };

    fn fmt<W: fmt::Write>(&self, f: &mut fmt::Formatter<W>) -> fmt::Result {
        if self.0 {
            write!(f, "removable")
        } else {
            write!(f, "tagged")
        }
    }
}

/// Appends the line of a tag.
fn put_tag(text: &mut String, tag: &Tag) -> Result<(), Memory>
    ensures value { OnOk result (string_bytes text.new ≡ string_bytes text.old ++ law.tag_line tag.now) }
{
    let (component, detected, attempt_due) = (tag.component, tag.detected, tag.attempt_due);
    let (attempted, closed) = (DayOrHyphen(tag.attempted), DayOrHyphen(tag.closed));
    let (until, mark) = (UntilWhen(tag.repair_due), Mark(tag.removable));
    write!(
        text,
        "{component} detected {detected} attempt {attempt_due} {attempted} repair {until} {closed} {mark}\n"
    )
}

/// Appends a line for each tag.
fn put_each(text: &mut String, tags: &[Tag]) -> Result<(), Memory>
    ensures value { OnOk result (string_bytes text.new ≡ string_bytes text.old ++ flat_map law.tag_line tags.now) }
{
    for tag in tags {
        put_tag(text, tag)?;
    }
    Ok(())
}

/// The text of the tags view: the identified leaks of a process unit (40 CFR 60.486a(b)), as known on a day.
pub fn tags_text(alloc: Global, unit: u16, day: Day, tags: &[Tag]) -> Result<Text, Memory>
    ensures value { IfOk result (λ text. text ≡ law.tags_text unit day tags.now) }
{
    let mut text = begun(alloc, "tags", unit, day)?;
    put_each(&mut text, tags)?;
    put_end(&mut text, tags.len())?;
    Ok(shown(text))
}

/// Appends the text of the tags view. When out of memory, `text` is unchanged.
pub fn put_tags(
    alloc: Global,
    unit: u16,
    day: Day,
    tags: &[Tag],
    out: &mut Vec<u8>,
) -> Result<(), Memory>
    ensures value { OnOk result (out.new.items ≡ out.old.items ++ law.tags_text unit day tags.now) }
    ensures unchanged { OnErr result (out.new.items ≡ out.old.items) }
{
    let text = tags_text(alloc, unit, day, tags)?;
    out.extend_from_slice(text.as_bytes())
}
