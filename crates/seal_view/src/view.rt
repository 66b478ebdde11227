ghost use Rattle.std.specs.Prelude.{◌≡◌, ◌≤◌, Ok, IfOk, IfErr, length};
ghost use Rattle.fact_kinds.specs.Facts.{facts_to};
ghost use Rattle.dual_seals.specs.declared.limits.TheConstants.{LONGEST_TEXT};
ghost use Rattle.pump_seals.specs.Moments.{MomentsRise, row_before};
ghost use Rattle.seal_view.specs.View as spec;

use crate::error::{SealsWhy, why_unread};
use crate::lines::lines_of;
use crate::wrong::first_wrong;
use component_histories::Histories;
use dual_seals::rows_of;
use ldar_days::Day;
use ldar_law::Text;
use pump_seals::SealRow;
use std::alloc::Global;

/// The text of the view of a process unit's pumps with dual mechanical seals, as known on a day, by a seal file (40 CFR 60.482-2a(d)).
/// Each pump that the file names has its lines, in ascending order. The errors are, in this order: no such process unit, the first bad
/// record of the file, the first record whose component is no pump of the process unit, and out of memory.
#[tactic(auto, unfolding(crate::specs::View::seals_asked))]
pub fn seals_text<H: Histories>(
    alloc: Global,
    histories: &mut H,
    unit: u16,
    day: Day,
    text: &[u8],
) -> Result<Text, SealsWhy>
    requires fits { length text.now ≤ LONGEST_TEXT }
    ensures value { IfOk result (λ view. spec.seals_asked unit day text.now (facts_to day (H.kept histories.old)) ≡ Ok view) }
    ensures why { IfErr result (spec.TellsWhy (spec.seals_asked unit day text.now (facts_to day (H.kept histories.old)))) }
    ensures unchanged { histories.new ≡ histories.old }
{
    if !histories.has_unit(unit, day) {
        return Err(SealsWhy::NoUnit);
    }
    match rows_of(alloc, text) {
        Ok(rows) => shown(alloc, histories, unit, day, &rows),
        Err(error) => Err(why_unread(error)),
    }
}

/// The text of the view by the rows of a file.
fn shown<H: Histories>(
    alloc: Global,
    histories: &mut H,
    unit: u16,
    day: Day,
    rows: &[SealRow],
) -> Result<Text, SealsWhy>
    requires ordered { MomentsRise row_before rows.now }
    ensures value { IfOk result (λ view. spec.by_rows unit day (facts_to day (H.kept histories.old)) rows.now ≡ Ok view) }
    ensures why { IfErr result (spec.TellsWhy (spec.by_rows unit day (facts_to day (H.kept histories.old)) rows.now)) }
    ensures unchanged { histories.new ≡ histories.old }
{
    if let Some(at) = first_wrong(histories, unit, day, rows) {
        return Err(SealsWhy::BadRow { at });
    }
    let lines = lines_of(alloc, histories, day, rows)?;
    Ok(seal_texts::seals_text(alloc, unit, day, &lines)?)
}
