//! The marks of one component, from the rows of a file. Its rows are found by binary search, so the rows of other components are
//! not looked at.

ghost use Rattle.std.specs.Prelude.{◌≡◌, ◌≤◌, ℕ, true, false, nat_lt, IfOk, filter, filter_map, length};
ghost use Rattle.std.specs.List.Sorted.{IsPartitionPoint};
ghost use Rattle.pump_seals.specs.Moments.{MomentsRise, mark_before, row_before};
ghost use Rattle.pump_seals.specs.Signs as spec;

use crate::moment::Moment;
use crate::row::{Mark, SealRow};
use ldar_days::Day;
use std::alloc::{AllocError, Global};

/// The number of rows with a component below this number.
fn count_below(rows: &[SealRow], component: u32) -> usize
    requires ordered { MomentsRise row_before rows.now }
    ensures within { result ≤ length rows.now }
    ensures value { IsPartitionPoint (λ r. nat_lt r.component component ≡ true) (λ r. nat_lt r.component component ≡ false) rows.now result }
{
    rows.partition_point(|row| u32::from(row.component) < component)
}

/// The rows without those of lower components.
fn rows_from(rows: &[SealRow], component: u16) -> &[SealRow]
    requires ordered { MomentsRise row_before rows.now }
    ensures value { (day : ℕ) → filter_map (spec.mark_if component day) result.now ≡ filter_map (spec.mark_if component day) rows.now }
    ensures ordered { MomentsRise row_before result.now }
{
    &rows[count_below(rows, u32::from(component))..]
}

/// The rows without those of higher components.
fn rows_to(rows: &[SealRow], component: u16) -> &[SealRow]
    requires ordered { MomentsRise row_before rows.now }
    ensures value { (day : ℕ) → filter_map (spec.mark_if component day) result.now ≡ filter_map (spec.mark_if component day) rows.now }
{
    &rows[..count_below(rows, u32::from(component) + 1)]
}

/// The mark of a row, if the row is of the component and of a day up to `day`.
fn mark_if(row: &SealRow, component: u16, day: Day) -> Option<Mark>
    ensures value { result ≡ spec.mark_if component day row.now }
{
    if row.component != component || day < row.day {
        return None;
    }
    Some(Mark {
        what: row.what,
        at: Moment {
            day: row.day,
            minute: row.minute,
        },
    })
}

/// The marks of a component up to a day, from some rows. The only error is out of memory.
fn marks_among(
    alloc: Global,
    rows: &[SealRow],
    component: u16,
    day: Day,
) -> Result<Vec<Mark>, AllocError>
    ensures value { IfOk result (λ marks. marks.items ≡ filter_map (spec.mark_if component day) rows.now) }
{
    rows.iter()
        .filter_map(|row| mark_if(row, component, day))
        .collect(alloc)
}

/// The marks of a component up to a day, from the rows of a file in order. The only error is out of memory.
#[tactic(auto, unfolding(crate::specs::Signs::marks_of))]
pub fn marks_of(
    alloc: Global,
    rows: &[SealRow],
    component: u16,
    day: Day,
) -> Result<Vec<Mark>, AllocError>
    requires ordered { MomentsRise row_before rows.now }
    ensures value { IfOk result (λ marks. marks.items ≡ spec.marks_of component day rows.now) }
    ensures ordered { IfOk result (λ marks. MomentsRise mark_before marks.items) }
{
    let rows = rows_to(rows_from(rows, component), component);
    marks_among(alloc, rows, component, day)
}

/// The mark, if it seals the pump or unseals it.
fn switch_if(mark: &Mark) -> Option<Mark>
    ensures value { result ≡ spec.switch_if mark.now }
{
    if mark.what.is_seal() {
        Some(*mark)
    } else {
        None
    }
}

/// The moment of a mark, if the sensor indicates a failure.
fn present_if(mark: &Mark) -> Option<Moment>
    ensures value { result ≡ spec.present_if mark.now }
{
    if mark.what.is_present() {
        Some(mark.at)
    } else {
        None
    }
}

/// The moment of a mark, if the sensor indicates the end of a failure.
fn gone_if(mark: &Mark) -> Option<Moment>
    ensures value { result ≡ spec.gone_if mark.now }
{
    if mark.what.is_gone() {
        Some(mark.at)
    } else {
        None
    }
}

/// The marks that seal the pump or unseal it. The only error is out of memory.
pub fn switches_of(alloc: Global, marks: &[Mark]) -> Result<Vec<Mark>, AllocError>
    ensures value { IfOk result (λ switches. switches.items ≡ spec.switches_of marks.now) }
{
    marks
        .iter()
        .filter_map(|mark| switch_if(mark))
        .collect(alloc)
}

/// The moments at which the sensor indicates a failure. The only error is out of memory.
pub fn failures_of(alloc: Global, marks: &[Mark]) -> Result<Vec<Moment>, AllocError>
    ensures value { IfOk result (λ moments. moments.items ≡ filter_map spec.present_if marks.now) }
{
    marks
        .iter()
        .filter_map(|mark| present_if(mark))
        .collect(alloc)
}

/// The moments at which the sensor indicates the end of a failure. The only error is out of memory.
pub fn ends_of(alloc: Global, marks: &[Mark]) -> Result<Vec<Moment>, AllocError>
    ensures value { IfOk result (λ moments. moments.items ≡ filter_map spec.gone_if marks.now) }
{
    marks.iter().filter_map(|mark| gone_if(mark)).collect(alloc)
}
