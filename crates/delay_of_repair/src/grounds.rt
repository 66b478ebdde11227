ghost use Rattle.std.specs.Prelude.{◌≡◌, ℕ, List};
ghost use Rattle.ldar_law.specs.declared.delay.Stop.{Stop as SomeStop};
ghost use Rattle.ldar_law.specs.Delays as law;
ghost use Rattle.delay_of_repair.specs.Ends.{AreEnds};

use crate::shutdowns::Ends;
use ldar_days::Day;
use ldar_law::{
    GROUND_DUAL_SEAL, GROUND_ISOLATED, GROUND_PURGING, GROUND_SHUTDOWN, GROUND_WITHDRAWN, Until,
};

/// The due day set by a delay of this ground that was entered on this day.
pub fn due_by(ends: &Ends, why: u8, day: Day) -> Until
    ensures value { (detected : ℕ) (attempts : List ℕ) (stops : List SomeStop) → AreEnds detected attempts stops ends.now
        → result ≡ law.due_by detected attempts stops why day }
{
    match why {
        GROUND_WITHDRAWN => Until::Date(ends.repair_by.max(day)),
        GROUND_SHUTDOWN => ends.first,
        GROUND_ISOLATED => Until::WhileIsolated,
        GROUND_PURGING => Until::NoDate,
        GROUND_DUAL_SEAL => Until::Date(ends.half_year),
        _ => ends.second,
    }
}
