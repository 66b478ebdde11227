//! Reads a fact from the start of some bytes and pushes it to a list. Each kind of fact has its fields at fixed places.
//!
//! If at least 23 bytes are there, the length of the longest fact, each field is read at its place. Only a number that is out
//! of range is read again byte by byte, to find the first wrong byte. Fewer than 23 bytes are copied and padded with zero bytes;
//! if the fact or the wrong byte reaches into the padding, the bytes were cut short.

ghost use Rattle.std.specs.Prelude.{◌≡◌, ◌+◌, ◌<◌, ◌≤◌, length, drop, vec_len, vec_capacity, Err, OnOk, IfOk, IfErr};
ghost use Rattle.ldar_facts.specs.Form.{Takes};
ghost use Rattle.ldar_facts.specs.FactForms as forms;
ghost use Rattle.ldar_facts.specs.Places.{BeginsFact, TakesFact};

use crate::body_at::{
    LONGEST_FACT, attempt_at, calibration_at, class_fact_at, component_at, delay_at, drift_at,
    election_at, indication_at, precision_at, reading_at, release_at, retire_at, shutdown_at,
    unit_at, visual_at,
};
use crate::field_at::{byte_at, day_at, two_bytes_at};
use crate::ranges::LAST_MINUTE;
use crate::read_end::ReadEnd;
use fact_kinds::{Fact, FactBody};
use ldar_days::Day;

/// The fields before a fact's body.
#[derive(Clone, Copy)]
struct FactHead {
    kind: u8,
    day: Day,
    minute: u16,
}

/// Pushes the fact at the start of bytes that are long enough for any fact. Returns the bytes after it.
pub(crate) fn add_fact<'a>(bytes: &'a [u8], facts: &mut Vec<Fact>) -> Result<&'a [u8], ReadEnd>
    requires long { LONGEST_FACT ≤ length bytes.now }
    requires room { vec_len facts.old < vec_capacity facts.old }
    ensures taken { IfOk result (λ rest. TakesFact bytes.now facts.old.items facts.new.items rest.now) }
    ensures stopped { IfErr result (λ stop. forms.fact.read bytes.now ≡ Err stop) }
    ensures len { OnOk result (vec_len facts.new ≡ vec_len facts.old + 1) }
    ensures capacity { vec_capacity facts.old ≤ vec_capacity facts.new }
{
    let head = head_at(bytes)?;
    match head.kind {
        1 => push(bytes, 19, head, unit_at(bytes), facts),
        2 => push(bytes, 15, head, component_at(bytes), facts),
        3 => push(bytes, 11, head, class_fact_at(bytes), facts),
        4 => push(bytes, 7, head, retire_at(bytes), facts),
        5 => push(bytes, 9, head, election_at(bytes), facts),
        6 => push(bytes, 8, head, shutdown_at(bytes), facts),
        7 => push(bytes, 11, head, calibration_at(bytes), facts),
        8 => push(bytes, 23, head, precision_at(bytes), facts),
        9 => push(bytes, 23, head, drift_at(bytes), facts),
        10 => push(bytes, 20, head, reading_at(bytes), facts),
        11 => push(bytes, 8, head, visual_at(bytes), facts),
        12 => push(bytes, 8, head, attempt_at(bytes), facts),
        13 => push(bytes, 12, head, delay_at(bytes), facts),
        14 => push(bytes, 7, head, release_at(bytes), facts),
        _ => push(bytes, 9, head, indication_at(bytes), facts),
    }
}

/// The kind, day and minute of a fact.
#[inline(always)]
#[tactic(auto, unfolding(crate::specs::FactForms::fact, crate::specs::FieldForms::fact_kind, crate::specs::FieldForms::minute))]
fn head_at(bytes: &[u8]) -> Result<FactHead, ReadEnd>
    requires { LONGEST_FACT ≤ length bytes.now }
    ensures value { IfOk result (λ head. BeginsFact bytes.now head.kind head.day head.minute) }
    ensures stopped { IfErr result (λ stop. forms.fact.read bytes.now ≡ Err stop) }
{
    let kind = byte_at(bytes, 0, 1, 15)?;
    let day = day_at(bytes, 1)?;
    let minute = two_bytes_at(bytes, 3, 0, LAST_MINUTE)?;
    Ok(FactHead { kind, day, minute })
}

/// Pushes a fact with this head and body, which ends at this place. Returns the bytes from there on.
#[inline(always)]
fn push<'a>(
    bytes: &'a [u8],
    to: usize,
    head: FactHead,
    body: Result<FactBody, ReadEnd>,
    facts: &mut Vec<Fact>,
) -> Result<&'a [u8], ReadEnd>
    requires within { to ≤ length bytes.now }
    requires room { vec_len facts.old < vec_capacity facts.old }
    requires head { BeginsFact bytes.now head.kind head.day head.minute }
    requires says { Takes (forms.body head.kind).read body (drop 5 bytes.now) (drop to bytes.now) }
    ensures taken { IfOk result (λ rest. TakesFact bytes.now facts.old.items facts.new.items rest.now) }
    ensures stopped { IfErr result (λ stop. forms.fact.read bytes.now ≡ Err stop) }
    ensures len { OnOk result (vec_len facts.new ≡ vec_len facts.old + 1) }
    ensures capacity { vec_capacity facts.old ≤ vec_capacity facts.new }
{
    let body = match body {
        Ok(body) => body,
        Err(stop) => return Err(stop),
    };
    facts.push_reserved(Fact {
        day: head.day,
        minute: head.minute,
        body,
    });
    Ok(&bytes[to..])
}
