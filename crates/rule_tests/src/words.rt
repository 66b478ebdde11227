//! Days, keys and classes in short, for the rows of every subject.

ghost use Rattle.std.specs.Prelude.{◌≡◌};
ghost use Rattle.fact_kinds.specs.declared.class.Designation.TheVariants.{Plain};

use fact_kinds::{Class, Designation, Key, Service};
use ldar_days::Day;
use std::test::Fail;

/// A key at a minute of a day.
pub fn key(day: Day, minute: u16) -> Key
    ensures { result ≡ record { day = day; minute = minute; handheld = 1; number = 1; index = 0 } }
{
    Key {
        day,
        minute,
        handheld: 1,
        number: 1,
        index: 0,
    }
}

/// A class with no designation.
pub fn plain(service: Service) -> Class
    ensures { result ≡ record { service = service; designation = Plain; plan = 0; month = 1 } }
{
    Class {
        service,
        designation: Designation::Plain,
        plan: 0,
        month: 1,
    }
}
