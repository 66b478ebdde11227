//! The bodies of facts: the fields of each kind, after its kind, day and minute. Places count from the fact's first byte.
//!
//! | kind | name | fields: place, width in bytes, range | length of the fact |
//! |---|---|---|---|
//! | 1 | Unit | unit 5, 1, 1 to 64; older 6, 1, 0 or 1; name 7, 12 | 19 |
//! | 2 | Component | component 5, 2; unit 7, 1; type 8, 1, 1 to 4; monomer 9, 1; replaces 10, 1; class 11, 4 | 15 |
//! | 3 | Class | component 5, 2; class 7, 4 | 11 |
//! | 4 | Retire | component 5, 2, 1 to 60000 | 7 |
//! | 5 | Election | unit 5, 1; mode 6, 1, 0, 1 or 3; notified 7, 2, a day | 9 |
//! | 6 | Shutdown | unit 5, 1; days 6, 2, 1 to 366 | 8 |
//! | 7 | Calibration | instrument 5, 2, 1 to 65535; gas 7, 4, 1 to 999999 ppm | 11 |
//! | 8 | Precision | instrument 5, 2; value 7, 4, 1 to 999999 ppm; three readings 11, 15, 19, 4 each, 0 to 999999 ppm | 23 |
//! | 9 | Drift | as Precision | 23 |
//! | 10 | Reading | component 5, 2; instrument 7, 2; operator 9, 2; purpose 11, 1, 1 or 2; ppm 12, 4; background 16, 4 | 20 |
//! | 11 | Visual | component 5, 2; state 7, 1, 0 to 2 | 8 |
//! | 12 | Attempt | component 5, 2; complete 7, 1, 0 or 1 | 8 |
//! | 13 | Delay | component 5, 2; ground 7, 1, 0 to 5; signer 8, 2; expected 10, 2, 0 or a day | 12 |
//! | 14 | Release | component 5, 2 | 7 |
//! | 15 | Indication | component 5, 2; sort 7, 1, 1 or 2; present 8, 1, 0 or 1 | 9 |
//!
//! A name is 1 to 12 capital letters, digits and hyphens, then zero bytes up to twelve. A class is its service (1 to 5),
//! designation (0 to 3), plan and month of the quarter (1 to 3). The plan is 1 to 60 months if the designation is 2, and
//! otherwise 0. In a reading, instrument 0 and operator 0 mean none, as does signer 0 in a delay.

ghost use Rattle.std.specs.Prelude.{◌+◌, ◌<◌, ◌≤◌, length, drop};
ghost use Rattle.ldar_facts.specs.Form.{Takes};
ghost use Rattle.ldar_facts.specs.FactForms as forms;

use crate::field_at::{
    byte_at, class_at, day_at, day_or_none_at, flag_at, four_bytes_at, kind_at, mode_at, name_at,
    purpose_at, readings_at, sort_at, state_at, two_bytes_at,
};
use crate::ranges::{LAST_COMPONENT, LAST_UNIT, MOST_PPM};
use crate::read_end::ReadEnd;
use fact_kinds::{FactBody, LONGEST_SHUTDOWN};

/// The length in bytes of the longest facts, precision tests and drift assessments.
pub(crate) const LONGEST_FACT: usize = 23;

/// The body of a process unit's fact.
#[inline(always)]
#[tactic(auto, unfolding(crate::specs::FactForms::unit_fact, crate::specs::FieldForms::unit))]
pub(crate) fn unit_at(bytes: &[u8]) -> Result<FactBody, ReadEnd>
    requires { LONGEST_FACT ≤ length bytes.now }
    ensures { Takes forms.unit_fact.read result (drop 5 bytes.now) (drop 19 bytes.now) }
{
    let unit = byte_at(bytes, 5, 1, LAST_UNIT)?;
    let older = flag_at(bytes, 6)?;
    let name = name_at(bytes, 7)?;
    Ok(FactBody::Unit { unit, older, name })
}

/// The body of a component's fact.
#[inline(always)]
#[tactic(auto, unfolding(crate::specs::FactForms::component_fact, crate::specs::FieldForms::component, crate::specs::FieldForms::unit))]
pub(crate) fn component_at(bytes: &[u8]) -> Result<FactBody, ReadEnd>
    requires { LONGEST_FACT ≤ length bytes.now }
    ensures { Takes forms.component_fact.read result (drop 5 bytes.now) (drop 15 bytes.now) }
{
    let component = two_bytes_at(bytes, 5, 1, LAST_COMPONENT)?;
    let unit = byte_at(bytes, 7, 1, LAST_UNIT)?;
    let kind = kind_at(bytes, 8)?;
    let monomer = flag_at(bytes, 9)?;
    let replaces = flag_at(bytes, 10)?;
    let class = class_at(bytes, 11)?;
    Ok(FactBody::Component {
        component,
        unit,
        kind,
        monomer,
        replaces,
        class,
    })
}

/// The body of a class's fact.
#[inline(always)]
#[tactic(auto, unfolding(crate::specs::FactForms::class_fact, crate::specs::FieldForms::component))]
pub(crate) fn class_fact_at(bytes: &[u8]) -> Result<FactBody, ReadEnd>
    requires { LONGEST_FACT ≤ length bytes.now }
    ensures { Takes forms.class_fact.read result (drop 5 bytes.now) (drop 11 bytes.now) }
{
    let component = two_bytes_at(bytes, 5, 1, LAST_COMPONENT)?;
    let class = class_at(bytes, 7)?;
    Ok(FactBody::Class { component, class })
}

/// The body of a retirement.
#[inline(always)]
#[tactic(auto, unfolding(crate::specs::FactForms::retire, crate::specs::FieldForms::component))]
pub(crate) fn retire_at(bytes: &[u8]) -> Result<FactBody, ReadEnd>
    requires { LONGEST_FACT ≤ length bytes.now }
    ensures { Takes forms.retire.read result (drop 5 bytes.now) (drop 7 bytes.now) }
{
    let component = two_bytes_at(bytes, 5, 1, LAST_COMPONENT)?;
    Ok(FactBody::Retire { component })
}

/// The body of an election of a skip period program.
#[inline(always)]
#[tactic(auto, unfolding(crate::specs::FactForms::election, crate::specs::FieldForms::unit))]
pub(crate) fn election_at(bytes: &[u8]) -> Result<FactBody, ReadEnd>
    requires { LONGEST_FACT ≤ length bytes.now }
    ensures { Takes forms.election.read result (drop 5 bytes.now) (drop 9 bytes.now) }
{
    let unit = byte_at(bytes, 5, 1, LAST_UNIT)?;
    let mode = mode_at(bytes, 6)?;
    let notified = day_at(bytes, 7)?;
    Ok(FactBody::Election {
        unit,
        mode,
        notified,
    })
}

/// The body of a shutdown.
#[inline(always)]
#[tactic(auto, unfolding(crate::specs::FactForms::shutdown, crate::specs::FieldForms::unit, crate::specs::FieldForms::shutdown_length))]
pub(crate) fn shutdown_at(bytes: &[u8]) -> Result<FactBody, ReadEnd>
    requires { LONGEST_FACT ≤ length bytes.now }
    ensures { Takes forms.shutdown.read result (drop 5 bytes.now) (drop 8 bytes.now) }
{
    let unit = byte_at(bytes, 5, 1, LAST_UNIT)?;
    let days = two_bytes_at(bytes, 6, 1, LONGEST_SHUTDOWN)?;
    Ok(FactBody::Shutdown { unit, days })
}

/// The body of a calibration.
#[inline(always)]
#[tactic(auto, unfolding(crate::specs::FactForms::calibration, crate::specs::FieldForms::instrument, crate::specs::FieldForms::known_value))]
pub(crate) fn calibration_at(bytes: &[u8]) -> Result<FactBody, ReadEnd>
    requires { LONGEST_FACT ≤ length bytes.now }
    ensures { Takes forms.calibration.read result (drop 5 bytes.now) (drop 11 bytes.now) }
{
    let instrument = two_bytes_at(bytes, 5, 1, 65_535)?;
    let gas = four_bytes_at(bytes, 7, 1, MOST_PPM)?;
    Ok(FactBody::Calibration { instrument, gas })
}

/// The body of a precision test.
#[inline(always)]
#[tactic(auto, unfolding(crate::specs::FactForms::precision, crate::specs::FieldForms::instrument, crate::specs::FieldForms::known_value))]
pub(crate) fn precision_at(bytes: &[u8]) -> Result<FactBody, ReadEnd>
    requires { LONGEST_FACT ≤ length bytes.now }
    ensures { Takes forms.precision.read result (drop 5 bytes.now) (drop 23 bytes.now) }
{
    let instrument = two_bytes_at(bytes, 5, 1, 65_535)?;
    let value = four_bytes_at(bytes, 7, 1, MOST_PPM)?;
    let readings = readings_at(bytes, 11)?;
    Ok(FactBody::Precision {
        instrument,
        value,
        readings,
    })
}

/// The body of a drift assessment.
#[inline(always)]
#[tactic(auto, unfolding(crate::specs::FactForms::drift, crate::specs::FieldForms::instrument, crate::specs::FieldForms::known_value))]
pub(crate) fn drift_at(bytes: &[u8]) -> Result<FactBody, ReadEnd>
    requires { LONGEST_FACT ≤ length bytes.now }
    ensures { Takes forms.drift.read result (drop 5 bytes.now) (drop 23 bytes.now) }
{
    let instrument = two_bytes_at(bytes, 5, 1, 65_535)?;
    let value = four_bytes_at(bytes, 7, 1, MOST_PPM)?;
    let readings = readings_at(bytes, 11)?;
    Ok(FactBody::Drift {
        instrument,
        value,
        readings,
    })
}

/// The body of a reading.
#[inline(always)]
#[tactic(auto, unfolding(crate::specs::FactForms::reading, crate::specs::FieldForms::component, crate::specs::FieldForms::number_or_none, crate::specs::FieldForms::concentration))]
pub(crate) fn reading_at(bytes: &[u8]) -> Result<FactBody, ReadEnd>
    requires { LONGEST_FACT ≤ length bytes.now }
    ensures { Takes forms.reading.read result (drop 5 bytes.now) (drop 20 bytes.now) }
{
    let component = two_bytes_at(bytes, 5, 1, LAST_COMPONENT)?;
    let instrument = two_bytes_at(bytes, 7, 0, 65_535)?;
    let operator = two_bytes_at(bytes, 9, 0, 65_535)?;
    let purpose = purpose_at(bytes, 11)?;
    let ppm = four_bytes_at(bytes, 12, 0, MOST_PPM)?;
    let background = four_bytes_at(bytes, 16, 0, MOST_PPM)?;
    Ok(FactBody::Reading {
        component,
        instrument,
        operator,
        purpose,
        ppm,
        background,
    })
}

/// The body of a visual inspection.
#[inline(always)]
#[tactic(auto, unfolding(crate::specs::FactForms::visual, crate::specs::FieldForms::component))]
pub(crate) fn visual_at(bytes: &[u8]) -> Result<FactBody, ReadEnd>
    requires { LONGEST_FACT ≤ length bytes.now }
    ensures { Takes forms.visual.read result (drop 5 bytes.now) (drop 8 bytes.now) }
{
    let component = two_bytes_at(bytes, 5, 1, LAST_COMPONENT)?;
    let state = state_at(bytes, 7)?;
    Ok(FactBody::Visual { component, state })
}

/// The body of an attempt at a repair.
#[inline(always)]
#[tactic(auto, unfolding(crate::specs::FactForms::attempt, crate::specs::FieldForms::component))]
pub(crate) fn attempt_at(bytes: &[u8]) -> Result<FactBody, ReadEnd>
    requires { LONGEST_FACT ≤ length bytes.now }
    ensures { Takes forms.attempt.read result (drop 5 bytes.now) (drop 8 bytes.now) }
{
    let component = two_bytes_at(bytes, 5, 1, LAST_COMPONENT)?;
    let complete = flag_at(bytes, 7)?;
    Ok(FactBody::Attempt {
        component,
        complete,
    })
}

/// The body of a delay of repair.
#[inline(always)]
#[tactic(auto, unfolding(crate::specs::FactForms::delay, crate::specs::FieldForms::component, crate::specs::FieldForms::delay_ground, crate::specs::FieldForms::number_or_none))]
pub(crate) fn delay_at(bytes: &[u8]) -> Result<FactBody, ReadEnd>
    requires { LONGEST_FACT ≤ length bytes.now }
    ensures { Takes forms.delay.read result (drop 5 bytes.now) (drop 12 bytes.now) }
{
    let component = two_bytes_at(bytes, 5, 1, LAST_COMPONENT)?;
    let ground = byte_at(bytes, 7, 0, 5)?;
    let signer = two_bytes_at(bytes, 8, 0, 65_535)?;
    let expected = day_or_none_at(bytes, 10)?;
    Ok(FactBody::Delay {
        component,
        ground,
        signer,
        expected,
    })
}

/// The body of a pressure release.
#[inline(always)]
#[tactic(auto, unfolding(crate::specs::FactForms::release, crate::specs::FieldForms::component))]
pub(crate) fn release_at(bytes: &[u8]) -> Result<FactBody, ReadEnd>
    requires { LONGEST_FACT ≤ length bytes.now }
    ensures { Takes forms.release.read result (drop 5 bytes.now) (drop 7 bytes.now) }
{
    let component = two_bytes_at(bytes, 5, 1, LAST_COMPONENT)?;
    Ok(FactBody::Release { component })
}

/// The body of an indication.
#[inline(always)]
#[tactic(auto, unfolding(crate::specs::FactForms::indication, crate::specs::FieldForms::component))]
pub(crate) fn indication_at(bytes: &[u8]) -> Result<FactBody, ReadEnd>
    requires { LONGEST_FACT ≤ length bytes.now }
    ensures { Takes forms.indication.read result (drop 5 bytes.now) (drop 9 bytes.now) }
{
    let component = two_bytes_at(bytes, 5, 1, LAST_COMPONENT)?;
    let sort = sort_at(bytes, 7)?;
    let present = flag_at(bytes, 8)?;
    Ok(FactBody::Indication {
        component,
        sort,
        present,
    })
}
