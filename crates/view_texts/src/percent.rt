ghost use Rattle.std.specs.Prelude.{◌≡◌, ◌++◌, IfOk, OnOk, OnErr, string_bytes};
ghost use Rattle.ldar_law.specs.Texts as law;

use crate::lines::shown;
use fact_kinds::Memory;
use ldar_law::{Tally, Text};
use std::alloc::Global;
use std::fmt;

/// A word, with `not` before it if it does not hold.
#[derive(Clone, Copy)]
struct OrNot {
    holds: bool,
    word: &'static str,
}

impl fmt::Display for OrNot {
    ghost use Rattle.std.specs.Prelude.{Some};
    ghost use Rattle.ldar_law.specs.Texts.{or_not};

    ghost output = { λ o. Some (or_not o.holds o.word.now) };

    fn fmt<W: fmt::Write>(&self, f: &mut fmt::Formatter<W>) -> fmt::Result {
        let word = self.word;
        if self.holds {
            write!(f, "{word}")
        } else {
            write!(f, "not {word}")
        }
    }
}

/// The line of the percent view.
fn line(
    alloc: Global,
    unit: u16,
    quarter: u16,
    tally: Tally,
    good: bool,
    skipped: bool,
) -> Result<String, Memory>
    ensures value { IfOk result (λ line. string_bytes line ≡ law.percent_text unit quarter tally good skipped) }
{
    let (leaking, monitored) = (tally.leaking, tally.monitored);
    let good = OrNot {
        holds: good,
        word: "good",
    };
    let skipped = OrNot {
        holds: skipped,
        word: "skipped",
    };
    format!(in alloc;
        "percent {unit} {quarter} leaking {leaking} monitored {monitored} {good} {skipped}\n"
    )
}

/// The text of the percent view, one line. It has the numbers of the unit's valves that leaked in a quarter and that were
/// monitored (40 CFR 60.485a(h)), whether the quarter is good, and whether it is skipped.
pub fn percent_text(
    alloc: Global,
    unit: u16,
    quarter: u16,
    tally: Tally,
    good: bool,
    skipped: bool,
) -> Result<Text, Memory>
    ensures value { IfOk result (λ text. text ≡ law.percent_text unit quarter tally good skipped) }
{
    Ok(shown(line(alloc, unit, quarter, tally, good, skipped)?))
}

/// Appends the line of the percent view. When out of memory, `text` is unchanged.
pub fn put_percent(
    alloc: Global,
    unit: u16,
    quarter: u16,
    tally: Tally,
    good: bool,
    skipped: bool,
    out: &mut Vec<u8>,
) -> Result<(), Memory>
    ensures value { OnOk result (out.new.items ≡ out.old.items ++ law.percent_text unit quarter tally good skipped) }
    ensures unchanged { OnErr result (out.new.items ≡ out.old.items) }
{
    let line = line(alloc, unit, quarter, tally, good, skipped)?;
    out.extend_from_slice(line.as_bytes())
}
