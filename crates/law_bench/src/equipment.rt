//! A component as the register has it.

use crate::day_at::{day_after, day_at};
use crate::history::{History, component_number};
use fact_kinds::{Class, Designation, Key, Kind, Service};
use ldar_days::Day;
use ldar_law::Equipment;
use std::alloc::{AllocError, Global};

/// The key of a fact that is the only one of its batch.
pub fn key_of(day: Day, minute: u16, number: u32) -> Key {
    Key {
        day,
        minute,
        handheld: 1,
        number,
        index: 0,
    }
}

/// A class with the month of the quarter that a number determines.
fn class_with(history: History, month: u32) -> Class {
    let service = match history.kind() {
        Kind::Pump => Service::Light,
        _ => Service::Gas,
    };
    Class {
        service,
        designation: Designation::Plain,
        plan: 0,
        month: (month % 3 + 1) as u8,
    }
}

/// The component with this number, from 0.
pub fn equipment(history: History, number: u32) -> Equipment {
    Equipment {
        component: component_number(number),
        unit: 1,
        kind: history.kind(),
        monomer: false,
        replaces: false,
        begin: day_after(0),
        retired: None,
        class: class_with(history, number),
    }
}

/// The two classes that are entered for it.
pub fn classes(
    alloc: Global,
    history: History,
    number: u32,
) -> Result<Vec<(Key, Class)>, AllocError> {
    let mut classes = Vec::with_capacity(alloc, 2)?;
    for place in 1..3 {
        let key = key_of(day_at(place, 3, history.days()), 0, place);
        classes.push((key, class_with(history, number.wrapping_add(place))))?;
    }
    Ok(classes)
}
