ghost use Rattle.std.specs.Prelude.{◌≡◌, ℕ, ◌++◌, List, OnOk};
ghost use Rattle.fact_kinds.specs.Fields as fields;
ghost use Rattle.fact_kinds.specs.Name.{spelled_name};
ghost use Rattle.ldar_facts.specs.Grammar.{spelled};

use fact_kinds::{Class, Designation, Kind, Name, Purpose, Service, Sort, VisualState};
use ldar_days::Day;
use std::alloc::AllocError;

/// Appends a byte.
pub(crate) fn put_byte(out: &mut Vec<u8>, number: u8) -> Result<(), AllocError>
    ensures { OnOk result (out.new.items ≡ out.old.items ++ fields.big_endian 1 number) }
{
    out.extend_from_slice(&number.to_be_bytes())
}

/// Appends a number in two bytes.
pub(crate) fn put_two_bytes(out: &mut Vec<u8>, number: u16) -> Result<(), AllocError>
    ensures { OnOk result (out.new.items ≡ out.old.items ++ fields.big_endian 2 number) }
{
    out.extend_from_slice(&number.to_be_bytes())
}

/// Appends a number in four bytes.
pub(crate) fn put_four_bytes(out: &mut Vec<u8>, number: u32) -> Result<(), AllocError>
    ensures { OnOk result (out.new.items ≡ out.old.items ++ fields.big_endian 4 number) }
{
    out.extend_from_slice(&number.to_be_bytes())
}

/// Appends a flag: 0 for no, 1 for yes.
pub(crate) fn put_flag(out: &mut Vec<u8>, flag: bool) -> Result<(), AllocError>
    ensures { OnOk result (out.new.items ≡ out.old.items ++ fields.bytes_of (fields.flag flag)) }
{
    put_byte(out, u8::from(flag))
}

/// Appends a day.
pub(crate) fn put_day(out: &mut Vec<u8>, day: Day) -> Result<(), AllocError>
    ensures { OnOk result (out.new.items ≡ out.old.items ++ fields.big_endian 2 day) }
{
    put_two_bytes(out, day.number() as u16)
}

/// Appends a day, or 0 for none.
pub(crate) fn put_day_or_none(out: &mut Vec<u8>, expected: Option<Day>) -> Result<(), AllocError>
    ensures { OnOk result (out.new.items ≡ out.old.items ++ fields.bytes_of (fields.day_or_none expected)) }
{
    match expected {
        None => put_two_bytes(out, 0),
        Some(expected) => put_day(out, expected),
    }
}

/// Appends a name, followed by zero bytes up to twelve.
pub(crate) fn put_name(out: &mut Vec<u8>, name: &Name) -> Result<(), AllocError>
    ensures { OnOk result (out.new.items ≡ out.old.items ++ spelled_name name.now) }
{
    out.extend_from_slice(name.padded())
}

/// Appends three readings, in ppm.
pub(crate) fn put_readings(out: &mut Vec<u8>, readings: (u32, u32, u32)) -> Result<(), AllocError>
    ensures { OnOk result (out.new.items ≡ out.old.items ++ spelled (fields.readings_fields readings)) }
{
    put_four_bytes(out, readings.0)?;
    put_four_bytes(out, readings.1)?;
    put_four_bytes(out, readings.2)
}

/// Appends a class.
pub(crate) fn put_class(out: &mut Vec<u8>, class: Class) -> Result<(), AllocError>
    ensures { OnOk result (out.new.items ≡ out.old.items ++ spelled (fields.class_fields class)) }
{
    put_byte(out, service_number(class.service))?;
    put_byte(out, designation_number(class.designation))?;
    put_byte(out, class.plan)?;
    put_byte(out, class.month)
}

fn service_number(service: Service) -> u8
    ensures { result ≡ fields.service_number service }
{
    match service {
        Service::Gas => 1,
        Service::Light => 2,
        Service::Heavy => 3,
        Service::Vacuum => 4,
        Service::Under300 => 5,
    }
}

fn designation_number(designation: Designation) -> u8
    ensures { result ≡ fields.designation_number designation }
{
    match designation {
        Designation::Plain => 0,
        Designation::Nde => 1,
        Designation::Unsafe => 2,
        Designation::Difficult => 3,
    }
}

pub(crate) fn kind_number(kind: Kind) -> u8
    ensures { result ≡ fields.kind_number kind }
{
    match kind {
        Kind::Valve => 1,
        Kind::Pump => 2,
        Kind::Compressor => 3,
        Kind::Relief => 4,
    }
}

pub(crate) fn purpose_number(purpose: Purpose) -> u8
    ensures { result ≡ fields.purpose_number purpose }
{
    match purpose {
        Purpose::Routine => 1,
        Purpose::FollowUp => 2,
    }
}

pub(crate) fn state_number(state: VisualState) -> u8
    ensures { result ≡ fields.state_number state }
{
    match state {
        VisualState::Dry => 0,
        VisualState::Drips => 1,
        VisualState::Designated => 2,
    }
}

pub(crate) fn sort_number(sort: Sort) -> u8
    ensures { result ≡ fields.sort_number sort }
{
    match sort {
        Sort::Sensor => 1,
        Sort::Evidence => 2,
    }
}
