ghost use Rattle.std.specs.Prelude.{◌≡◌, ℕ};

use crate::body::FactBody;
use ldar_days::Day;
use std::marker::Model;

/// An entry, with its day and its minute of the day (0 to 1439). Each field is in its range.
#[derive(Clone, Copy, PartialEq, Eq)]
pub struct Fact {
    pub day: Day,
    pub minute: u16,
    pub body: FactBody,
}

impl Model for Fact {
    ghost use Rattle.fact_kinds.specs.Stated.{Stated};
    ghost use Rattle.fact_kinds.specs.Fields.{IsFact};

    ghost Value = { Stated };

    ghost view = { λ f. record { day = f.day; minute = f.minute; body = f.body } };

    ghost invariant = { λ f. IsFact (record { day = f.day; minute = f.minute; body = f.body }) };

    ghost inverse = { λ s. record { day = s.day; minute = s.minute; body = s.body } };
}
