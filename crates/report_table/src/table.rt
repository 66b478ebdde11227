ghost use Rattle.std.specs.Prelude.{◌≡◌, List, [], ◌∷◌, ◌++◌, Option, IfOk, OnOk, OnErr, filter};
ghost use Rattle.disk_model.specs.Told.{Told, BothTold};
ghost use Rattle.report_table.specs.Given.{kept_as, IsFoundLast, IsFoundOne};
ghost use Rattle.report_table.specs.Kept.{KeptRow};
ghost use Rattle.report_table.specs.Statements.{is_for, is_at};

use crate::{Error, FiledRow};
use std::alloc::Global;

/// A table of filed reports: one row for each revision of a unit's half.
pub trait Table: Drop {
    /// The rows, in the order in which they were added, if the table exposes them.
    ghost rows: { Self → Option (List KeptRow) };

    /// Limits the steps of each later statement; visiting a row is a step. A statement that would need more is refused.
    fn set_step_limit(&mut self, steps: Option<u64>)
        ensures unchanged { rows self.new ≡ rows self.old };

    /// Adds a row at the end. The table refuses a second row with the same unit, half and revision.
    fn insert(&mut self, alloc: Global, row: &FiledRow) -> Result<(), Error>
        ensures put { OnOk result (BothTold (rows self.old) (rows self.new) (λ old new. new ≡ old ++ kept_as row.now ∷ [])) }
        ensures unchanged { OnErr result (rows self.new ≡ rows self.old) };

    /// The row of a unit's half with the greatest revision, if there is one.
    fn latest(&mut self, alloc: Global, unit: u8, half: u16) -> Result<Option<FiledRow>, Error>
        ensures value { IfOk result (λ found. Told (rows self.old) (λ all. IsFoundLast (filter (is_for unit half) all) found)) }
        ensures unchanged { rows self.new ≡ rows self.old };

    /// The row of a revision of a unit's half, if there is one.
    fn revision(
        &mut self,
        alloc: Global,
        unit: u8,
        half: u16,
        revision: u32,
    ) -> Result<Option<FiledRow>, Error>
        ensures value { IfOk result (λ found. Told (rows self.old) (λ all. IsFoundOne (filter (is_at unit half revision) all) found)) }
        ensures unchanged { rows self.new ≡ rows self.old };
}
