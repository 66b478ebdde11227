//! Keys of facts. `Ord` is written by hand and cites `key_cmp`, since the fields are not in the order in which they compare.

ghost use Rattle.std.specs.Prelude.{◌≡◌};
ghost use Rattle.std.proofs.Common.{rules};
ghost use Rattle.std.specs.Cmp.{partial_order_from_own_ties, partial_order_from_total};
ghost use Rattle.std.specs.Cmp.Rules.{comparing};
ghost use Rattle.std.specs.Ordering.{as_partial_cmp};
ghost use Rattle.fact_kinds.specs.Facts.{key_cmp};
ghost use Rattle.fact_kinds.specs.KeyLaws.{key_cmp_total};

use ldar_days::Day;
use std::cmp::Ordering;

/// The place of a fact in the order of all facts: by day, minute, handheld, batch number and index in the batch.
/// The index counts from 0. It is declared before the number so that the struct has no padding.
#[derive(Clone, Copy, Debug, PartialEq, Eq)]
pub struct Key {
    pub day: Day,
    pub minute: u16,
    pub handheld: u16,
    pub index: u16,
    pub number: u32,
}

impl Key {
    /// The parts, in the order in which they are compared.
    fn parts(&self) -> (Day, u16, u16, u32, u16)
        ensures value { result ≡ (self.now.day, self.now.minute, self.now.handheld, self.now.number, self.now.index) }
    {
        (
            self.day,
            self.minute,
            self.handheld,
            self.number,
            self.index,
        )
    }
}

impl Ord for Key {
    ghost cmp = { key_cmp };

    ghost total = { key_cmp_total };

    ghost matches_partial_cmp = { Prim.search (comparing, rules) };

    ghost matches_eq = { Prim.search (comparing, rules) };

    fn cmp(&self, other: &Key) -> Ordering {
        self.parts().cmp(&other.parts())
    }
}

impl PartialOrd for Key {
    ghost partial_cmp = { as_partial_cmp key_cmp };

    ghost laws = { partial_order_from_own_ties (partial_order_from_total key_cmp_total) (Prim.search (comparing, rules)) };

    fn partial_cmp(&self, other: &Key) -> Option<Ordering> {
        Some(self.cmp(other))
    }
}
