//! Sorts an instrument's facts into the three kinds that decide on its readings.

ghost use Rattle.std.specs.Prelude.{◌≡◌, ◌++◌, ◌∷◌, [], if◌then◌else◌, OnOk};
ghost use Rattle.method21_reading.specs.Instruments.{added, is_calibrating, is_failed_drift, is_passed_test};

use crate::drift::has_drifted;
use crate::precision::is_precise;
use fact_kinds::{Fact, FactBody, Key, Memory};

/// Adds a fact if `is_kept` is true.
fn keep(kept: &mut Vec<(Key, Fact)>, is_kept: bool, e: &(Key, Fact)) -> Result<(), Memory>
    ensures taken { OnOk result (kept.new.items ≡ kept.old.items ++ (if is_kept then e.now ∷ [] else [])) }
{
    if is_kept {
        kept.push(*e)?;
    }
    Ok(())
}

/// Adds a fact to the list of its kind: the calibrations, the precision tests that passed, or the drift assessments with a
/// mean more than 10 percent below the known value.
pub fn keep_apart(
    calibrations: &mut Vec<(Key, Fact)>,
    tests: &mut Vec<(Key, Fact)>,
    drifts: &mut Vec<(Key, Fact)>,
    e: &(Key, Fact),
) -> Result<(), Memory>
    ensures calibrations { OnOk result (calibrations.new.items ≡ added is_calibrating e.now calibrations.old.items) }
    ensures tests { OnOk result (tests.new.items ≡ added is_passed_test e.now tests.old.items) }
    ensures drifts { OnOk result (drifts.new.items ≡ added is_failed_drift e.now drifts.old.items) }
{
    match e.1.body {
        FactBody::Calibration { .. } => keep(calibrations, true, e),
        FactBody::Precision {
            value,
            readings,
            ..
        } => keep(tests, is_precise(value, readings), e),
        FactBody::Drift {
            value,
            readings,
            ..
        } => keep(drifts, has_drifted(value, readings), e),
        FactBody::Unit { .. }
        | FactBody::Component { .. }
        | FactBody::Class { .. }
        | FactBody::Retire { .. }
        | FactBody::Election { .. }
        | FactBody::Shutdown { .. }
        | FactBody::Reading { .. }
        | FactBody::Visual { .. }
        | FactBody::Attempt { .. }
        | FactBody::Delay { .. }
        | FactBody::Release { .. }
        | FactBody::Indication { .. } => Ok(()),
    }
}
