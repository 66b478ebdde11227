//! The order of rows. `Ord` is implemented by hand and cites `row_key_cmp`, so that contracts can name it.

ghost use Rattle.std.specs.Prelude.{◌≡◌};
ghost use Rattle.std.proofs.Common.{rules};
ghost use Rattle.std.specs.Cmp.{partial_order_from_own_ties, partial_order_from_total};
ghost use Rattle.std.specs.Cmp.Rules.{comparing};
ghost use Rattle.std.specs.Ordering.{as_partial_cmp};
ghost use Rattle.dual_seals.specs.RowKeys.{row_key_cmp, row_key_cmp_total};
ghost use Rattle.dual_seals.specs.RowOrder.{key_of as says_key, rank_of as says_rank};

use ldar_days::Day;
use pump_seals::{SealRow, SealWhat};
use std::cmp::Ordering;

/// The place of a row in the order of rows: by component, day and minute, and then seals before sensors. Two rows with the
/// same key are duplicates.
#[derive(Clone, Copy, Debug, PartialEq, Eq)]
pub struct RowKey {
    pub component: u16,
    pub day: Day,
    pub minute: u16,
    /// 0 for a row about the seal, 1 for a row about the sensor.
    pub rank: u8,
}

impl RowKey {
    /// The parts, in the order in which they are compared.
    fn parts(&self) -> (u16, Day, u16, u8)
        ensures value { result ≡ (self.now.component, self.now.day, self.now.minute, self.now.rank) }
    {
        (self.component, self.day, self.minute, self.rank)
    }
}

impl Ord for RowKey {
    ghost cmp = { row_key_cmp };

    ghost total = { row_key_cmp_total };

    ghost matches_partial_cmp = { Prim.search (comparing, rules) };

    ghost matches_eq = { Prim.search (comparing, rules) };

    fn cmp(&self, other: &RowKey) -> Ordering {
        self.parts().cmp(&other.parts())
    }
}

impl PartialOrd for RowKey {
    ghost partial_cmp = { as_partial_cmp row_key_cmp };

    ghost laws = { partial_order_from_own_ties (partial_order_from_total row_key_cmp_total) (Prim.search (comparing, rules)) };

    fn partial_cmp(&self, other: &RowKey) -> Option<Ordering> {
        Some(self.cmp(other))
    }
}

/// 0 for a row about the seal, 1 for a row about the sensor.
fn rank_of(what: SealWhat) -> u8
    ensures value { result ≡ says_rank what }
{
    if what.is_seal() { 0 } else { 1 }
}

/// The key of a row.
pub fn key_of(row: &SealRow) -> RowKey
    ensures value { result ≡ says_key row.now }
{
    RowKey {
        component: row.component,
        day: row.day,
        minute: row.minute,
        rank: rank_of(row.what),
    }
}
