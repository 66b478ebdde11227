//! Fields at fixed places, in bytes that are long enough. Only a wrong field is read a second time, for its first wrong byte.

ghost use Rattle.std.specs.Prelude.{◌≡◌, ◌+◌, ◌<◌, ◌≤◌, [], ◌∷◌, length, drop, IfOk};
ghost use Rattle.ldar_facts.specs.Form.{Takes};
ghost use Rattle.ldar_facts.specs.Number.{number_from, among, stop_of};
ghost use Rattle.ldar_facts.specs.Letters.{name_form};
ghost use Rattle.ldar_facts.specs.FieldForms as forms;

use crate::cursor::Cursor;
use crate::padded_name::padded_name;
use crate::ranges::{DAYS_OR_NONE, MODES, MOST_PPM};
use crate::read_end::ReadEnd;
use crate::read_number::{self, first_wrong};
use fact_kinds::{Class, Designation, Kind, Name, Purpose, Service, Sort, VisualState};
use ldar_days::Day;

/// Whether the number is in the range.
#[inline(always)]
fn lies(number: u32, least: u32, most: u32) -> bool
    ensures { result ≡ among ((least, most) ∷ []) number }
{
    least <= number && number <= most
}

/// The bytes from a place on.
fn bytes_from(bytes: &[u8], at: usize) -> &[u8]
    requires { at ≤ length bytes.now }
    ensures { result.now ≡ drop at bytes.now }
{
    &bytes[at..]
}

/// The first wrong byte of a number at a place that is out of its range.
#[cold]
fn wrong_at(bytes: &[u8], at: usize, width: usize, least: u32, most: u32) -> ReadEnd
    requires fits { width ≤ 4 }
    requires within { at ≤ length bytes.now }
    ensures { result ≡ stop_of (number_from width ((least, most) ∷ []) 0 (drop at bytes.now)) }
{
    first_wrong(bytes_from(bytes, at), width, &[(least, most)])
}

/// The byte at a place, if it is in the range.
#[inline(always)]
pub(crate) fn byte_at(bytes: &[u8], at: usize, least: u8, most: u8) -> Result<u8, ReadEnd>
    requires { at < length bytes.now }
    ensures read { Takes (number_from 1 ((least, most) ∷ []) 0) result (drop at bytes.now) (drop (at + 1) bytes.now) }
    ensures in_range { IfOk result (λ n. (least ≤ n) × (n ≤ most)) }
{
    let number = bytes[at];
    if !lies(u32::from(number), u32::from(least), u32::from(most)) {
        return Err(wrong_at(bytes, at, 1, u32::from(least), u32::from(most)));
    }
    Ok(number)
}

/// The number of two bytes at a place, if it is in the range.
#[inline(always)]
pub(crate) fn two_bytes_at(bytes: &[u8], at: usize, least: u16, most: u16) -> Result<u16, ReadEnd>
    requires { at + 2 ≤ length bytes.now }
    ensures read { Takes (number_from 2 ((least, most) ∷ []) 0) result (drop at bytes.now) (drop (at + 2) bytes.now) }
    ensures in_range { IfOk result (λ n. (least ≤ n) × (n ≤ most)) }
{
    let number = u16::from_be_bytes([bytes[at], bytes[at + 1]]);
    if !lies(u32::from(number), u32::from(least), u32::from(most)) {
        return Err(wrong_at(bytes, at, 2, u32::from(least), u32::from(most)));
    }
    Ok(number)
}

/// The number of four bytes at a place, if it is in the range.
#[inline(always)]
pub(crate) fn four_bytes_at(bytes: &[u8], at: usize, least: u32, most: u32) -> Result<u32, ReadEnd>
    requires { at + 4 ≤ length bytes.now }
    ensures { Takes (number_from 4 ((least, most) ∷ []) 0) result (drop at bytes.now) (drop (at + 4) bytes.now) }
{
    let number = u32::from_be_bytes([bytes[at], bytes[at + 1], bytes[at + 2], bytes[at + 3]]);
    if !lies(number, least, most) {
        return Err(wrong_at(bytes, at, 4, least, most));
    }
    Ok(number)
}

/// A flag at a place: 0 for no, 1 for yes.
#[inline(always)]
#[tactic(auto, unfolding(crate::specs::FieldForms::flag))]
pub(crate) fn flag_at(bytes: &[u8], at: usize) -> Result<bool, ReadEnd>
    requires { at < length bytes.now }
    ensures { Takes forms.flag.read result (drop at bytes.now) (drop (at + 1) bytes.now) }
{
    let number = byte_at(bytes, at, 0, 1)?;
    Ok(number == 1)
}

/// The day at a place.
#[inline(always)]
#[tactic(auto, unfolding(crate::specs::FieldForms::day))]
pub(crate) fn day_at(bytes: &[u8], at: usize) -> Result<Day, ReadEnd>
    requires { at + 2 ≤ length bytes.now }
    ensures { Takes forms.day.read result (drop at bytes.now) (drop (at + 2) bytes.now) }
{
    let number = two_bytes_at(bytes, at, 13_879, 47_481)?;
    Ok(Day::at(u32::from(number)))
}

/// A day at a place, or 0 for none.
#[tactic(auto, unfolding(crate::specs::FieldForms::day_or_none))]
pub(crate) fn day_or_none_at(bytes: &[u8], at: usize) -> Result<Option<Day>, ReadEnd>
    requires { at + 2 ≤ length bytes.now }
    ensures { Takes forms.day_or_none.read result (drop at bytes.now) (drop (at + 2) bytes.now) }
{
    let (number, _) = read_number::two_bytes(bytes_from(bytes, at), &DAYS_OR_NONE)?;
    Ok(Day::of_number(u32::from(number)))
}

/// A skip period program at a place.
#[tactic(auto, unfolding(crate::specs::FieldForms::mode))]
pub(crate) fn mode_at(bytes: &[u8], at: usize) -> Result<u8, ReadEnd>
    requires { at < length bytes.now }
    ensures { Takes forms.mode.read result (drop at bytes.now) (drop (at + 1) bytes.now) }
{
    let (mode, _) = read_number::byte(bytes_from(bytes, at), &MODES)?;
    Ok(mode)
}

/// The name of a process unit at a place.
pub(crate) fn name_at(bytes: &[u8], at: usize) -> Result<Name, ReadEnd>
    requires { at + 12 ≤ length bytes.now }
    ensures { Takes name_form.read result (drop at bytes.now) (drop (at + 12) bytes.now) }
{
    let mut padded = [0u8; 12];
    padded.copy_from_slice(&bytes[at..at + 12]);
    match padded_name(padded) {
        Some(name) => Ok(name),
        None => name_by_letters(bytes_from(bytes, at)),
    }
}

/// The name of a process unit at the start of some bytes, read letter by letter to find the first wrong byte.
#[cold]
fn name_by_letters(bytes: &[u8]) -> Result<Name, ReadEnd>
    requires { 12 ≤ length bytes.now }
    ensures { Takes name_form.read result bytes.now (drop 12 bytes.now) }
{
    Cursor::new(bytes).name()
}

/// The type of a component at a place.
#[inline(always)]
#[tactic(auto, unfolding(crate::specs::FieldForms::kind))]
pub(crate) fn kind_at(bytes: &[u8], at: usize) -> Result<Kind, ReadEnd>
    requires { at < length bytes.now }
    ensures { Takes forms.kind.read result (drop at bytes.now) (drop (at + 1) bytes.now) }
{
    let number = byte_at(bytes, at, 1, 4)?;
    Ok(kind_of(number))
}

/// The service of a component at a place.
#[inline(always)]
#[tactic(auto, unfolding(crate::specs::FieldForms::service))]
fn service_at(bytes: &[u8], at: usize) -> Result<Service, ReadEnd>
    requires { at < length bytes.now }
    ensures { Takes forms.service.read result (drop at bytes.now) (drop (at + 1) bytes.now) }
{
    let number = byte_at(bytes, at, 1, 5)?;
    Ok(service_of(number))
}

/// The designation of a component at a place.
#[inline(always)]
#[tactic(auto, unfolding(crate::specs::FieldForms::designation))]
fn designation_at(bytes: &[u8], at: usize) -> Result<Designation, ReadEnd>
    requires { at < length bytes.now }
    ensures { Takes forms.designation.read result (drop at bytes.now) (drop (at + 1) bytes.now) }
{
    let number = byte_at(bytes, at, 0, 3)?;
    Ok(designation_of(number))
}

/// The purpose of a reading at a place.
#[inline(always)]
#[tactic(auto, unfolding(crate::specs::FieldForms::purpose))]
pub(crate) fn purpose_at(bytes: &[u8], at: usize) -> Result<Purpose, ReadEnd>
    requires { at < length bytes.now }
    ensures { Takes forms.purpose.read result (drop at bytes.now) (drop (at + 1) bytes.now) }
{
    let number = byte_at(bytes, at, 1, 2)?;
    Ok(purpose_of(number))
}

/// The result of a visual inspection at a place.
#[inline(always)]
#[tactic(auto, unfolding(crate::specs::FieldForms::state))]
pub(crate) fn state_at(bytes: &[u8], at: usize) -> Result<VisualState, ReadEnd>
    requires { at < length bytes.now }
    ensures { Takes forms.state.read result (drop at bytes.now) (drop (at + 1) bytes.now) }
{
    let number = byte_at(bytes, at, 0, 2)?;
    Ok(state_of(number))
}

/// The kind of an indication at a place.
#[inline(always)]
#[tactic(auto, unfolding(crate::specs::FieldForms::sort))]
pub(crate) fn sort_at(bytes: &[u8], at: usize) -> Result<Sort, ReadEnd>
    requires { at < length bytes.now }
    ensures { Takes forms.sort.read result (drop at bytes.now) (drop (at + 1) bytes.now) }
{
    let number = byte_at(bytes, at, 1, 2)?;
    Ok(sort_of(number))
}

/// The months of a plan at a place, in the range that the designation allows.
#[inline(always)]
#[tactic(auto, unfolding(crate::specs::FieldForms::plan))]
fn plan_at(bytes: &[u8], at: usize, designation: Designation) -> Result<u8, ReadEnd>
    requires { at < length bytes.now }
    ensures { Takes (forms.plan designation).read result (drop at bytes.now) (drop (at + 1) bytes.now) }
{
    match designation {
        Designation::Unsafe => byte_at(bytes, at, 1, 60),
        Designation::Plain => byte_at(bytes, at, 0, 0),
        Designation::Nde => byte_at(bytes, at, 0, 0),
        Designation::Difficult => byte_at(bytes, at, 0, 0),
    }
}

/// The class of a component at a place.
#[inline(always)]
#[tactic(auto, unfolding(crate::specs::FieldForms::class, crate::specs::FieldForms::month))]
pub(crate) fn class_at(bytes: &[u8], at: usize) -> Result<Class, ReadEnd>
    requires { at + 4 ≤ length bytes.now }
    ensures { Takes forms.class.read result (drop at bytes.now) (drop (at + 4) bytes.now) }
{
    let service = service_at(bytes, at)?;
    let designation = designation_at(bytes, at + 1)?;
    let plan = plan_at(bytes, at + 2, designation)?;
    let month = byte_at(bytes, at + 3, 1, 3)?;
    Ok(Class {
        service,
        designation,
        plan,
        month,
    })
}

/// Three readings at a place, in ppm.
#[inline(always)]
#[tactic(auto, unfolding(crate::specs::FieldForms::readings, crate::specs::FieldForms::concentration))]
pub(crate) fn readings_at(bytes: &[u8], at: usize) -> Result<(u32, u32, u32), ReadEnd>
    requires { at + 12 ≤ length bytes.now }
    ensures { Takes forms.readings.read result (drop at bytes.now) (drop (at + 12) bytes.now) }
{
    let first = four_bytes_at(bytes, at, 0, MOST_PPM)?;
    let second = four_bytes_at(bytes, at + 4, 0, MOST_PPM)?;
    let third = four_bytes_at(bytes, at + 8, 0, MOST_PPM)?;
    Ok((first, second, third))
}

fn kind_of(number: u8) -> Kind
    ensures { result ≡ forms.kind_of number }
{
    match number {
        1 => Kind::Valve,
        2 => Kind::Pump,
        3 => Kind::Compressor,
        _ => Kind::Relief,
    }
}

fn service_of(number: u8) -> Service
    ensures { result ≡ forms.service_of number }
{
    match number {
        1 => Service::Gas,
        2 => Service::Light,
        3 => Service::Heavy,
        4 => Service::Vacuum,
        _ => Service::Under300,
    }
}

fn designation_of(number: u8) -> Designation
    ensures { result ≡ forms.designation_of number }
{
    match number {
        0 => Designation::Plain,
        1 => Designation::Nde,
        2 => Designation::Unsafe,
        _ => Designation::Difficult,
    }
}

fn purpose_of(number: u8) -> Purpose
    ensures { result ≡ forms.purpose_of number }
{
    match number {
        1 => Purpose::Routine,
        _ => Purpose::FollowUp,
    }
}

fn state_of(number: u8) -> VisualState
    ensures { result ≡ forms.state_of number }
{
    match number {
        0 => VisualState::Dry,
        1 => VisualState::Drips,
        _ => VisualState::Designated,
    }
}

fn sort_of(number: u8) -> Sort
    ensures { result ≡ forms.sort_of number }
{
    match number {
        1 => Sort::Sensor,
        _ => Sort::Evidence,
    }
}
