ghost use Rattle.std.specs.Prelude.{◌≡◌, ◌↔◌, IsTrue};
ghost use Rattle.fact_kinds.specs.Identity.{identity_of};

use crate::batch::{Batch, FactList};

/// The handheld that sent a batch, and the batch's number there. Ordered by handheld, then by number.
#[derive(Clone, Copy, Debug, PartialEq, Eq, PartialOrd, Ord, Hash)]
pub struct Identity {
    pub handheld: u16,
    pub number: u32,
}

impl Batch {
    /// The batch's identity, by which a repeated batch is recognized.
    pub fn identity(&self) -> Identity
        ensures value { result ≡ identity_of self.now }
    {
        Identity {
            handheld: self.handheld,
            number: self.number,
        }
    }

    /// Whether the other batch is equal in all its parts.
    pub fn same_content(&self, other: &Batch) -> bool
        ensures value { IsTrue result ↔ (self.now ≡ other.now) }
    {
        self.handheld == other.handheld
            && self.number == other.number
            && self.facts.same_facts(&other.facts)
    }
}

impl FactList {
    /// Whether the other list has the same facts in the same order.
    pub fn same_facts(&self, other: &FactList) -> bool
        ensures value { IsTrue result ↔ (self.now ≡ other.now) }
    {
        self.as_slice() == other.as_slice()
    }
}
