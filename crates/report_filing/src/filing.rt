ghost use Rattle.std.specs.Prelude.{◌≡◌, ◌≤◌, ℕ, List, [], ◌∷◌, ◌++◌, Option, IfOk, OnOk, OnErr};
ghost use Rattle.disk_model.specs.Faults.{Rose};
ghost use Rattle.disk_model.specs.Told.{Told, BothTold};
ghost use Rattle.ldar_law.specs.declared.report.Filed.{Filed};
ghost use Rattle.report_filing.specs.Revisions.{latest_of, revision_of, AreNumbered, IsNext};

use fact_kinds::Memory;
use ldar_law::Filed;
use std::alloc::Global;

/// Why a call of a filing failed.
#[derive(Clone, Copy, Debug, PartialEq, Eq)]
pub enum FilingFault {
    /// The filing failed, and counted the error.
    Failed,
    Memory,
}

impl From<Memory> for FilingFault {
    ghost use Rattle.std.specs.Prelude.{◌≡◌};
    ghost use Rattle.report_filing.specs.declared.filing.FilingFault.TheVariants.{Memory};

    ghost from_gives = { λ _ e. e ≡ Memory };

    fn from(_e: Memory) -> FilingFault {
        FilingFault::Memory
    }
}

/// Filed reports, and a count of errors. The revisions of each unit and half count from 1.
pub trait Filing {
    /// The reports in the order of filing, if the filing exposes them. `revisions` is their map from a unit and half to
    /// its revisions.
    ghost on_file: { Self → Option (List Filed) };

    /// The number of failed calls. It stays at 2^64 - 1 once it reaches it.
    ghost faults: { Self → ℕ };

    /// The last revision of a unit's half, if one was filed.
    fn latest(&mut self, alloc: Global, unit: u8, half: u16) -> Result<Option<Filed>, FilingFault>
        ensures value { IfOk result (λ found. Told (on_file self.old) (λ old. found ≡ latest_of unit half old)) }
        ensures numbered { Told (on_file self.old) AreNumbered }
        ensures unchanged { on_file self.new ≡ on_file self.old }
        ensures count { faults self.old ≤ faults self.new }
        ensures cause { result ≡ Err FilingFault.Failed → Rose (faults self.old) (faults self.new) };

    /// The revision with this number of a unit's half, if it was filed.
    fn revision(
        &mut self,
        alloc: Global,
        unit: u8,
        half: u16,
        revision: u32,
    ) -> Result<Option<Filed>, FilingFault>
        ensures value { IfOk result (λ found. Told (on_file self.old) (λ old. found ≡ revision_of unit half revision old)) }
        ensures numbered { Told (on_file self.old) AreNumbered }
        ensures unchanged { on_file self.new ≡ on_file self.old }
        ensures count { faults self.old ≤ faults self.new }
        ensures cause { result ≡ Err FilingFault.Failed → Rose (faults self.old) (faults self.new) };

    /// Files a revision, which must be the next one of its unit and half.
    fn put(&mut self, alloc: Global, filed: &Filed) -> Result<(), FilingFault>
        requires next { Told (on_file self.old) (IsNext filed.now) }
        ensures put { OnOk result (BothTold (on_file self.old) (on_file self.new) (λ old new. new ≡ old ++ filed.now ∷ [])) }
        ensures unchanged { OnErr result (on_file self.new ≡ on_file self.old) }
        ensures count { faults self.old ≤ faults self.new }
        ensures cause { result ≡ Err FilingFault.Failed → Rose (faults self.old) (faults self.new) };
}
