ghost use Rattle.std.specs.Prelude.{◌≡◌, ◌++◌, OnOk};
ghost use Rattle.fact_kinds.specs.declared.body.FactBody.TheVariants as says;
ghost use Rattle.fact_kinds.specs.Fields.{body_fields, body_number};
ghost use Rattle.ldar_facts.specs.Grammar.{spelled};

use crate::write_field::{
    kind_number, purpose_number, put_byte, put_class, put_day, put_day_or_none, put_flag,
    put_four_bytes, put_name, put_readings, put_two_bytes, sort_number, state_number,
};
use fact_kinds::{Class, FactBody, Kind, Name, Purpose, Sort, VisualState};
use ldar_days::Day;
use std::alloc::AllocError;

/// Appends the fields of a fact's body.
pub(crate) fn put_body(out: &mut Vec<u8>, body: &FactBody) -> Result<(), AllocError>
    ensures { OnOk result (out.new.items ≡ out.old.items ++ spelled (body_fields body.now)) }
{
    match *body {
        FactBody::Unit { unit, older, name } => put_unit(out, unit, older, &name),
        FactBody::Component {
            component,
            unit,
            kind,
            monomer,
            replaces,
            class,
        } => put_component(out, component, unit, kind, monomer, replaces, class),
        FactBody::Class { component, class } => put_class_fact(out, component, class),
        FactBody::Retire { component } => put_two_bytes(out, component),
        FactBody::Election {
            unit,
            mode,
            notified,
        } => put_election(out, unit, mode, notified),
        FactBody::Shutdown { unit, days } => put_shutdown(out, unit, days),
        FactBody::Calibration { instrument, gas } => put_known(out, instrument, gas),
        FactBody::Precision {
            instrument,
            value,
            readings,
        } => put_assessment(out, instrument, value, readings),
        FactBody::Drift {
            instrument,
            value,
            readings,
        } => put_assessment(out, instrument, value, readings),
        FactBody::Reading {
            component,
            instrument,
            operator,
            purpose,
            ppm,
            background,
        } => put_reading(
            out, component, instrument, operator, purpose, ppm, background,
        ),
        FactBody::Visual { component, state } => put_visual(out, component, state),
        FactBody::Attempt {
            component,
            complete,
        } => put_attempt(out, component, complete),
        FactBody::Delay {
            component,
            ground,
            signer,
            expected,
        } => put_delay(out, component, ground, signer, expected),
        FactBody::Release { component } => put_two_bytes(out, component),
        FactBody::Indication {
            component,
            sort,
            present,
        } => put_indication(out, component, sort, present),
    }
}

/// Appends the fields of a process unit.
fn put_unit(out: &mut Vec<u8>, unit: u8, older: bool, name: &Name) -> Result<(), AllocError>
    ensures { OnOk result (out.new.items ≡ out.old.items ++ spelled (body_fields (says.Unit unit older name.now))) }
{
    put_byte(out, unit)?;
    put_flag(out, older)?;
    put_name(out, name)
}

/// Appends the fields of a component.
fn put_component(
    out: &mut Vec<u8>,
    component: u16,
    unit: u8,
    kind: Kind,
    monomer: bool,
    replaces: bool,
    class: Class,
) -> Result<(), AllocError>
    ensures { OnOk result (out.new.items ≡ out.old.items ++ spelled (body_fields (says.Component component unit kind monomer replaces class))) }
{
    put_two_bytes(out, component)?;
    put_byte(out, unit)?;
    put_byte(out, kind_number(kind))?;
    put_flag(out, monomer)?;
    put_flag(out, replaces)?;
    put_class(out, class)
}

/// Appends the fields of a component's class.
fn put_class_fact(out: &mut Vec<u8>, component: u16, class: Class) -> Result<(), AllocError>
    ensures { OnOk result (out.new.items ≡ out.old.items ++ spelled (body_fields (says.Class component class))) }
{
    put_two_bytes(out, component)?;
    put_class(out, class)
}

/// Appends the fields of an election of a skip period program.
fn put_election(out: &mut Vec<u8>, unit: u8, mode: u8, notified: Day) -> Result<(), AllocError>
    ensures { OnOk result (out.new.items ≡ out.old.items ++ spelled (body_fields (says.Election unit mode notified))) }
{
    put_byte(out, unit)?;
    put_byte(out, mode)?;
    put_day(out, notified)
}

/// Appends the fields of a shutdown.
fn put_shutdown(out: &mut Vec<u8>, unit: u8, days: u16) -> Result<(), AllocError>
    ensures { OnOk result (out.new.items ≡ out.old.items ++ spelled (body_fields (says.Shutdown unit days))) }
{
    put_byte(out, unit)?;
    put_two_bytes(out, days)
}

/// Appends an instrument and a known value in ppm.
fn put_known(out: &mut Vec<u8>, instrument: u16, value: u32) -> Result<(), AllocError>
    ensures { OnOk result (out.new.items ≡ out.old.items ++ spelled (body_fields (says.Calibration instrument value))) }
{
    put_two_bytes(out, instrument)?;
    put_four_bytes(out, value)
}

/// Appends the fields of a precision test or a drift assessment, which are the same.
fn put_assessment(
    out: &mut Vec<u8>,
    instrument: u16,
    value: u32,
    readings: (u32, u32, u32),
) -> Result<(), AllocError>
    ensures { OnOk result (out.new.items ≡ out.old.items ++ spelled (body_fields (says.Precision instrument value readings))) }
{
    put_known(out, instrument, value)?;
    put_readings(out, readings)
}

/// Appends the fields of a reading.
fn put_reading(
    out: &mut Vec<u8>,
    component: u16,
    instrument: u16,
    operator: u16,
    purpose: Purpose,
    ppm: u32,
    background: u32,
) -> Result<(), AllocError>
    ensures { OnOk result (out.new.items ≡ out.old.items ++ spelled (body_fields (says.Reading component instrument operator purpose ppm background))) }
{
    put_two_bytes(out, component)?;
    put_two_bytes(out, instrument)?;
    put_two_bytes(out, operator)?;
    put_byte(out, purpose_number(purpose))?;
    put_four_bytes(out, ppm)?;
    put_four_bytes(out, background)
}

/// Appends the fields of a visual inspection.
fn put_visual(out: &mut Vec<u8>, component: u16, state: VisualState) -> Result<(), AllocError>
    ensures { OnOk result (out.new.items ≡ out.old.items ++ spelled (body_fields (says.Visual component state))) }
{
    put_two_bytes(out, component)?;
    put_byte(out, state_number(state))
}

/// Appends the fields of an attempt at a repair.
fn put_attempt(out: &mut Vec<u8>, component: u16, complete: bool) -> Result<(), AllocError>
    ensures { OnOk result (out.new.items ≡ out.old.items ++ spelled (body_fields (says.Attempt component complete))) }
{
    put_two_bytes(out, component)?;
    put_flag(out, complete)
}

/// Appends the fields of a delay of repair.
fn put_delay(
    out: &mut Vec<u8>,
    component: u16,
    ground: u8,
    signer: u16,
    expected: Option<Day>,
) -> Result<(), AllocError>
    ensures { OnOk result (out.new.items ≡ out.old.items ++ spelled (body_fields (says.Delay component ground signer expected))) }
{
    put_two_bytes(out, component)?;
    put_byte(out, ground)?;
    put_two_bytes(out, signer)?;
    put_day_or_none(out, expected)
}

/// Appends the fields of an indication.
fn put_indication(
    out: &mut Vec<u8>,
    component: u16,
    sort: Sort,
    present: bool,
) -> Result<(), AllocError>
    ensures { OnOk result (out.new.items ≡ out.old.items ++ spelled (body_fields (says.Indication component sort present))) }
{
    put_two_bytes(out, component)?;
    put_byte(out, sort_number(sort))?;
    put_flag(out, present)
}

/// The number of a fact's kind.
pub(crate) fn number_of(body: &FactBody) -> u8
    ensures { result ≡ body_number body.now }
{
    match body {
        FactBody::Unit { .. } => 1,
        FactBody::Component { .. } => 2,
        FactBody::Class { .. } => 3,
        FactBody::Retire { .. } => 4,
        FactBody::Election { .. } => 5,
        FactBody::Shutdown { .. } => 6,
        FactBody::Calibration { .. } => 7,
        FactBody::Precision { .. } => 8,
        FactBody::Drift { .. } => 9,
        FactBody::Reading { .. } => 10,
        FactBody::Visual { .. } => 11,
        FactBody::Attempt { .. } => 12,
        FactBody::Delay { .. } => 13,
        FactBody::Release { .. } => 14,
        FactBody::Indication { .. } => 15,
    }
}
