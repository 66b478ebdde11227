ghost use Rattle.std.specs.Prelude.{◌≡◌, ◌≤◌, ◌++◌, [], ◌∷◌, IfOk, OnOk, OnErr, option_map};
ghost use Rattle.disk_model.specs.Faults.{Rose};
ghost use Rattle.disk_model.specs.Told.{Told, BothTold};
ghost use Rattle.report_filing.specs.Revisions.{latest_of, revision_of, AreNumbered, IsNext};
ghost use Rattle.report_table.specs.Reports.{filed_of};

use crate::Table;
use crate::fault::fault_of;
use crate::report_row::{found_in, row_of};
use ldar_law::Filed;
use report_filing::{Filing, FilingFault};
use std::alloc::Global;
use std::marker::Model;

/// Filed reports in a table. It fails if the store cannot be opened, a statement is refused, or a row does not read back,
/// unless it ran out of memory. In contracts it is the reports of the rows, if the table exposes its rows, and the count of
/// errors.
#[derive(Drop)]
pub struct TableFiling<T: Table> {
    table: T,
    faults: u64,
}

impl<T: Table> Model for TableFiling<T> {
    ghost use Rattle.std.specs.Prelude.{option_map};
    ghost use Rattle.disk_model.specs.Told.{Told};
    ghost use Rattle.report_table.specs.Reports.{filed_of, AreFiled, OnFile};

    ghost Value = { OnFile };

    ghost view = { λ f. record { reports = option_map filed_of (T.rows f.table); faults = f.faults } };

    ghost invariant = { λ f. Told (T.rows f.table) AreFiled };
}

impl<T: Table> TableFiling<T> {
    /// The filed reports in a table. It allocates and opens nothing. A table that exposes its rows must have none yet.
    pub fn new(table: T) -> TableFiling<T>
        requires empty { Told (T.rows table) (λ rows. rows ≡ []) }
        ensures value { result ≡ record { reports = option_map filed_of (T.rows table); faults = 0 } }
    {
        TableFiling { table, faults: 0 }
    }

    /// Limits the steps of each later call; visiting a row is a step. A call that would need more fails.
    pub fn set_step_limit(&mut self, steps: Option<u64>)
        ensures unchanged { self.new ≡ self.old }
    {
        self.table.set_step_limit(steps);
    }

    /// The report of the row with the greatest revision, if there is one.
    fn last_found(
        &mut self,
        alloc: Global,
        unit: u8,
        half: u16,
    ) -> Result<Option<Filed>, FilingFault>
        ensures value { IfOk result (λ found. Told self.old.reports (λ old. found ≡ latest_of unit half old)) }
        ensures numbered { Told self.old.reports AreNumbered }
        ensures unchanged { self.new ≡ self.old }
    {
        found_in(alloc, self.table.latest(alloc, unit, half))
    }

    /// The report of the row with this revision, if there is one.
    fn one_found(
        &mut self,
        alloc: Global,
        unit: u8,
        half: u16,
        revision: u32,
    ) -> Result<Option<Filed>, FilingFault>
        ensures value { IfOk result (λ found. Told self.old.reports (λ old. found ≡ revision_of unit half revision old)) }
        ensures numbered { Told self.old.reports AreNumbered }
        ensures unchanged { self.new ≡ self.old }
    {
        found_in(alloc, self.table.revision(alloc, unit, half, revision))
    }

    /// Adds the row of the report.
    fn keep(&mut self, alloc: Global, filed: &Filed) -> Result<(), FilingFault>
        requires next { Told self.old.reports (IsNext filed.now) }
        ensures put { OnOk result (BothTold self.old.reports self.new.reports (λ old new. new ≡ old ++ filed.now ∷ [])) }
        ensures unchanged { OnErr result (self.new.reports ≡ self.old.reports) }
        ensures faults { self.new.faults ≡ self.old.faults }
    {
        let row = row_of(alloc, filed)?;
        self.table.insert(alloc, &row).map_err(fault_of)
    }

    /// Counts an error.
    fn counted(&mut self, fault: FilingFault) -> FilingFault
        ensures same { result ≡ fault }
        ensures unchanged { self.new.reports ≡ self.old.reports }
        ensures count { self.old.faults ≤ self.new.faults }
        ensures cause { fault ≡ FilingFault.Failed → Rose self.old.faults self.new.faults }
    {
        if fault == FilingFault::Failed {
            self.faults = self.faults.saturating_add(1);
        }
        fault
    }
}

impl<T: Table> Filing for TableFiling<T> {
    ghost on_file = { λ f. f.reports };

    ghost faults = { λ f. f.faults };

    fn latest(&mut self, alloc: Global, unit: u8, half: u16) -> Result<Option<Filed>, FilingFault> {
        match self.last_found(alloc, unit, half) {
            Ok(found) => Ok(found),
            Err(fault) => Err(self.counted(fault)),
        }
    }

    fn revision(
        &mut self,
        alloc: Global,
        unit: u8,
        half: u16,
        revision: u32,
    ) -> Result<Option<Filed>, FilingFault> {
        match self.one_found(alloc, unit, half, revision) {
            Ok(found) => Ok(found),
            Err(fault) => Err(self.counted(fault)),
        }
    }

    fn put(&mut self, alloc: Global, filed: &Filed) -> Result<(), FilingFault> {
        match self.keep(alloc, filed) {
            Ok(()) => Ok(()),
            Err(fault) => Err(self.counted(fault)),
        }
    }
}
