ghost use Rattle.std.specs.Prelude.{◌≡◌};
ghost use Rattle.ldar_law.specs.Duties.{is_listed as says_listed};

use crate::numbers::LISTED_DAYS;
use fact_kinds::Key;
use ldar_days::Day;

/// Something that must be done at a component.
#[derive(Clone, Copy, Debug, PartialEq, Eq)]
pub struct Duty {
    pub component: u16,
    /// One of `CAUSE_FIRST` to `CAUSE_EVIDENCE`.
    pub cause: u8,
    pub due: Day,
    /// The fact that met the duty.
    pub met: Option<Key>,
}

/// Whether a duty belongs on the list of a day (our own rule): its period, from the first day to the due day, contains
/// the day, or it is not met and was due at most 366 days before.
pub fn is_listed(day: Day, first: Day, due: Day, unmet: bool) -> bool
    ensures value { result ≡ says_listed day first due unmet }
{
    first <= day && (day <= due || (unmet && day.number() <= due.number() + LISTED_DAYS))
}
