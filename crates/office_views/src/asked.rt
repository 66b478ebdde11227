//! The process unit that a view asks for, by the register. If there is none, the answer takes no memory.

ghost use Rattle.std.specs.Prelude.{◌≡◌, ◌≤◌, None, IfOk, IfSome};
ghost use Rattle.fact_store.specs.Kept.{facts_in};
ghost use Rattle.ldar_law.specs.declared.numbers.TheConstants.{LAST_FACT_DAY};
ghost use Rattle.ldar_law.specs.Shown as law;
ghost use Rattle.office_views.specs.Answers.{IsView};
ghost use Rattle.office_views.specs.Asked as says;

use crate::reports::has_begun;
use crate::shares::has_quarter_begun;
use crate::unit_on::unit_on;
use component_register::Register;
use ldar_days::Day;
use ldar_law::{Request, UnitEntry, What};

/// The day of a view.
pub fn view_day(request: &Request) -> Day
    requires view { IsView request.now }
    ensures value { result ≡ law.view_day request.now }
{
    match request {
        Request::Due { day, .. } => *day,
        Request::Tags { day, .. } => *day,
        Request::Delays { day, .. } => *day,
        Request::Route { day, .. } => *day,
        Request::Percent { day, .. } => *day,
        Request::Report { day, .. } => *day,
        Request::Sync(_) => unreachable!(),
    }
}

/// The number of the process unit that a view asks of.
fn view_unit(request: &Request) -> u16
    requires view { IsView request.now }
    ensures value { result ≡ says.view_unit request.now }
{
    match request {
        Request::Due { unit, .. } => *unit,
        Request::Tags { unit, .. } => *unit,
        Request::Delays { unit, .. } => *unit,
        Request::Route { unit, .. } => *unit,
        Request::Percent { unit, .. } => *unit,
        Request::Report { unit, .. } => *unit,
        Request::Sync(_) => unreachable!(),
    }
}

/// What a view asks of a process unit, and there is none of.
fn lacked(request: &Request, entry: &UnitEntry) -> Option<What>
    requires startup { entry.now.startup ≤ LAST_FACT_DAY }
    ensures value { result ≡ says.lacked request.now entry.now }
    ensures in_calendar { result ≡ None → says.IsInCalendar request.now entry.now }
{
    match request {
        Request::Route { stops, .. } => {
            if *stops == 0 {
                return Some(What::Stops);
            }
            None
        }
        Request::Percent { quarter, day, .. } => {
            if has_quarter_begun(entry.startup, *quarter, *day) {
                return None;
            }
            Some(What::Quarter)
        }
        Request::Report { half, day, .. } => {
            if has_begun(entry.startup, *half, *day) {
                return None;
            }
            Some(What::Half)
        }
        Request::Sync(_) | Request::Due { .. } | Request::Tags { .. } | Request::Delays { .. } =>
            None,
    }
}

/// The process unit that a view asks of as it is known on the view's day, if there is all that the view asks, or what there
/// is none of.
pub fn unit_asked(register: &Register, request: &Request) -> Result<UnitEntry, What>
    requires view { IsView request.now }
    requires startup { IfSome (says.unit_known (says.view_unit request.now) (law.view_day request.now) (facts_in register.now))
        (λ entry. entry.startup ≤ LAST_FACT_DAY) }
    ensures value { result ≡ says.asked request.now
        (says.unit_known (says.view_unit request.now) (law.view_day request.now) (facts_in register.now)) }
    ensures in_calendar { IfOk result (λ entry. says.IsInCalendar request.now entry) }
    ensures startup { IfOk result (λ entry. entry.startup ≤ LAST_FACT_DAY) }
{
    let known = unit_on(register, view_unit(request), view_day(request));
    let Some(entry) = known else {
        return Err(What::Unit);
    };
    match lacked(request, &entry) {
        Some(what) => Err(what),
        None => Ok(entry),
    }
}
