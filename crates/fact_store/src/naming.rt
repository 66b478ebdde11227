//! The four indexes of a store are one type, which differs only in the number by which it lists facts.

ghost use Rattle.std.specs.Prelude.{◌≡◌, IfOk};
ghost use Rattle.std.specs.List.{filter_map};
ghost use Rattle.fact_store.specs.Naming.{named_by};

use fact_kinds::{Fact, FactBody, component_of, reading_instrument, tested_instrument, unit_of};
use std::alloc::{AllocError, Global};

/// The number of a fact by which an index lists it.
#[derive(Clone, Copy)]
pub enum Naming {
    Component,
    Unit,
    /// The instrument of a calibration, a precision test or a drift assessment.
    Tested,
    /// The instrument of a reading.
    Reading,
}

impl Naming {
    /// The number of a fact, or `None` if its kind has none.
    pub fn number_of(self, body: &FactBody) -> Option<u16>
        ensures value { result ≡ named_by self body.now }
    {
        match self {
            Naming::Component => component_of(body),
            Naming::Unit => unit_of(body).map(u16::from),
            Naming::Tested => tested_instrument(body),
            Naming::Reading => reading_instrument(body),
        }
    }

    /// The numbers of some facts, each as often as it occurs.
    pub fn numbers_of(self, alloc: Global, facts: &[Fact]) -> Result<Vec<u16>, AllocError>
        ensures value { IfOk result (λ numbers. numbers.items ≡ filter_map (λ fact. named_by self fact.body) facts.now) }
    {
        facts
            .iter()
            .filter_map(|fact| self.number_of(&fact.body))
            .collect(alloc)
    }
}
