ghost use Rattle.std.specs.Prelude.{◌≡◌, ◌≤◌, ℕ, List, Option, IfOk, OnErr, Contains, take};
ghost use Rattle.disk_model.specs.Faults.{Rose};
ghost use Rattle.disk_model.specs.Told.{Told, BothTold};
ghost use Rattle.report_filing.specs.Calls.{map_of, AnswersCall, AnswersCalls, AnswersPut};
ghost use Rattle.report_filing.specs.Revisions.{IsNext};
ghost use Rattle.report_filing.specs.Calls as spec;
ghost use Rattle.report_filing.specs.declared.calls.FilingCall.TheVariants as call;

use crate::cells::copy_of;
use crate::{Filing, FilingFault, Memory};
use ldar_days::Day;
use ldar_law::{Cells, Filed};
use std::alloc::Global;

/// A call of a filing.
#[derive(Drop)]
pub enum FilingCall {
    /// Files these cells as the next revision of a unit's half.
    Put {
        unit: u8,
        half: u16,
        day: Day,
        cells: Cells,
    },
    /// Asks for the last revision of a unit's half.
    Latest {
        unit: u8,
        half: u16,
    },
    /// Asks for the revision with this number of a unit's half.
    Revision {
        unit: u8,
        half: u16,
        revision: u32,
    },
}

/// The answer of a filing to a call.
#[derive(Drop)]
pub enum FilingAnswer {
    /// The cells were filed as this revision.
    Put { revision: u32 },
    /// The last revision has the greatest number, so nothing was filed.
    Full,
    /// The report that was asked for, if it was filed.
    Found(Option<Filed>),
    /// The call failed. The filed reports are unchanged.
    Fault(FilingFault),
}

/// The number after that of the last revision, if one is left.
fn number_after(last: &Option<Filed>) -> Option<u32>
    ensures value { result ≡ spec.number_after last.now }
{
    match last {
        Some(last) => last.revision.checked_add(1),
        None => Some(1),
    }
}

/// The next revision with these cells, if a number is left for it.
fn next_of<F: Filing>(
    alloc: Global,
    filing: &mut F,
    unit: u8,
    half: u16,
    day: Day,
    cells: &Cells,
) -> Result<Option<Filed>, FilingFault>
    ensures value { IfOk result (λ next. Told (F.on_file filing.old) (spec.IsNextOf unit half day cells.now next)) }
    ensures unchanged { F.on_file filing.new ≡ F.on_file filing.old }
    ensures count { F.faults filing.old ≤ F.faults filing.new }
    ensures cause { result ≡ Err FilingFault.Failed → Rose (F.faults filing.old) (F.faults filing.new) }
{
    let last = filing.latest(alloc, unit, half)?;
    let Some(revision) = number_after(&last) else {
        return Ok(None);
    };
    Ok(Some(Filed {
        unit,
        half,
        revision,
        day,
        cells: copy_of(alloc, cells)?,
    }))
}

/// Files these cells as the next revision.
fn put_next<F: Filing>(
    alloc: Global,
    filing: &mut F,
    unit: u8,
    half: u16,
    day: Day,
    cells: &Cells,
) -> FilingAnswer
    ensures value { BothTold (F.on_file filing.old) (F.on_file filing.new)
        (λ old new. AnswersCall (call.Put unit half day cells.now) result (map_of old) (map_of new)) }
    ensures count { F.faults filing.old ≤ F.faults filing.new }
    ensures cause { result ≡ FilingAnswer.Fault FilingFault.Failed → Rose (F.faults filing.old) (F.faults filing.new) }
{
    match next_of(alloc, filing, unit, half, day, cells) {
        Ok(Some(filed)) => put_filed(alloc, filing, &filed),
        Ok(None) => FilingAnswer::Full,
        Err(fault) => FilingAnswer::Fault(fault),
    }
}

/// Files the next revision.
fn put_filed<F: Filing>(alloc: Global, filing: &mut F, filed: &Filed) -> FilingAnswer
    requires next { Told (F.on_file filing.old) (IsNext filed.now) }
    ensures value { BothTold (F.on_file filing.old) (F.on_file filing.new) (AnswersPut filed.now result) }
    ensures count { F.faults filing.old ≤ F.faults filing.new }
    ensures cause { result ≡ FilingAnswer.Fault FilingFault.Failed → Rose (F.faults filing.old) (F.faults filing.new) }
{
    match filing.put(alloc, filed) {
        Ok(()) => FilingAnswer::Put {
            revision: filed.revision,
        },
        Err(fault) => FilingAnswer::Fault(fault),
    }
}

/// The answer to a question for a report.
fn found_or_fault(found: Result<Option<Filed>, FilingFault>) -> FilingAnswer
    ensures value { result ≡ spec.found_or_fault found }
{
    match found {
        Ok(found) => FilingAnswer::Found(found),
        Err(fault) => FilingAnswer::Fault(fault),
    }
}

/// The last revision of a unit's half.
fn ask_latest<F: Filing>(alloc: Global, filing: &mut F, unit: u8, half: u16) -> FilingAnswer
    ensures value { BothTold (F.on_file filing.old) (F.on_file filing.new)
        (λ old new. AnswersCall (call.Latest unit half) result (map_of old) (map_of new)) }
    ensures count { F.faults filing.old ≤ F.faults filing.new }
    ensures cause { result ≡ FilingAnswer.Fault FilingFault.Failed → Rose (F.faults filing.old) (F.faults filing.new) }
{
    found_or_fault(filing.latest(alloc, unit, half))
}

/// The revision with this number of a unit's half.
fn ask_revision<F: Filing>(
    alloc: Global,
    filing: &mut F,
    unit: u8,
    half: u16,
    revision: u32,
) -> FilingAnswer
    ensures value { BothTold (F.on_file filing.old) (F.on_file filing.new)
        (λ old new. AnswersCall (call.Revision unit half revision) result (map_of old) (map_of new)) }
    ensures count { F.faults filing.old ≤ F.faults filing.new }
    ensures cause { result ≡ FilingAnswer.Fault FilingFault.Failed → Rose (F.faults filing.old) (F.faults filing.new) }
{
    found_or_fault(filing.revision(alloc, unit, half, revision))
}

/// Makes one call.
fn ask<F: Filing>(alloc: Global, filing: &mut F, call: &FilingCall) -> FilingAnswer
    ensures value { BothTold (F.on_file filing.old) (F.on_file filing.new)
        (λ old new. AnswersCall call.now result (map_of old) (map_of new)) }
    ensures count { F.faults filing.old ≤ F.faults filing.new }
    ensures cause { result ≡ FilingAnswer.Fault FilingFault.Failed → Rose (F.faults filing.old) (F.faults filing.new) }
{
    match call {
        FilingCall::Put {
            unit,
            half,
            day,
            cells,
        } => put_next(alloc, filing, *unit, *half, *day, cells),
        FilingCall::Latest { unit, half } => ask_latest(alloc, filing, *unit, *half),
        FilingCall::Revision {
            unit,
            half,
            revision,
        } => ask_revision(alloc, filing, *unit, *half, *revision),
    }
}

/// Makes these calls one after the other. The answers are those of a map from a unit and half to a list of reports; a call
/// that fails leaves the map unchanged. If it runs out of memory for an answer, it does not make the remaining calls.
pub fn ask_each<F: Filing>(
    alloc: Global,
    filing: &mut F,
    calls: &[FilingCall],
) -> Result<Vec<FilingAnswer>, Memory>
    ensures value { IfOk result (λ answers. BothTold (F.on_file filing.old) (F.on_file filing.new)
        (λ old new. AnswersCalls calls.now answers.items (map_of old) (map_of new))) }
    ensures stopped { OnErr result (BothTold (F.on_file filing.old) (F.on_file filing.new)
        (λ old new. spec.AnswersSome calls.now (map_of old) (map_of new))) }
    ensures count { F.faults filing.old ≤ F.faults filing.new }
    ensures cause { IfOk result (λ answers. Contains answers.items (FilingAnswer.Fault FilingFault.Failed)
        → Rose (F.faults filing.old) (F.faults filing.new)) }
{
    let mut answers = Vec::new(alloc);
    for call in calls {
        let answer = ask(alloc, filing, call);
        answers.push(answer)?;
    }
    Ok(answers)
}
