ghost use Rattle.std.specs.Prelude.{◌≡◌, Some, [], ◌∷◌, ◌++◌, IfOk, OnOk, OnErr, option_map};
ghost use Rattle.report_filing.specs.Revisions.{is_filed_for, latest_of, is_revision, revision_of, AreNumbered, IsNext};

use crate::cells::copy_of;
use crate::{Filing, FilingFault, Memory};
use ldar_law::Filed;
use std::alloc::Global;
use std::marker::Model;

/// Filed reports in memory, which never fail. In contracts they are in the order of filing.
#[derive(Drop)]
pub struct MapFiling {
    all: Vec<Filed>,
}

impl Model for MapFiling {
    ghost use Rattle.std.specs.Prelude.{List};
    ghost use Rattle.ldar_law.specs.declared.report.Filed.{Filed};
    ghost use Rattle.report_filing.specs.Revisions.{AreNumbered};

    ghost Value = { List Filed };

    ghost view = { λ f. f.all.items };

    ghost invariant = { λ f. AreNumbered f.all.items };
}

impl MapFiling {
    /// A filing without reports. Allocates nothing.
    pub fn new(alloc: Global) -> MapFiling
        ensures value { result ≡ [] }
    {
        MapFiling {
            all: Vec::new(alloc),
        }
    }

    /// The reports, in the order of filing.
    pub fn as_slice(&self) -> &[Filed]
        ensures value { result.now ≡ self.now }
        ensures numbered { AreNumbered result.now }
    {
        &self.all
    }

    /// Adds the next revision of its unit and half at the end.
    fn keep(&mut self, alloc: Global, filed: &Filed) -> Result<(), Memory>
        requires next { IsNext filed.now self.old }
        ensures put { OnOk result (self.new ≡ self.old ++ filed.now ∷ []) }
        ensures unchanged { OnErr result (self.new ≡ self.old) }
    {
        let copy = copied(alloc, filed)?;
        self.all.push(copy)?;
        Ok(())
    }
}

/// Whether a report was filed for this unit and half.
fn is_filed_for(filed: &Filed, unit: u8, half: u16) -> bool
    ensures value { result ≡ is_filed_for unit half filed.now }
{
    filed.unit == unit && filed.half == half
}

/// The last revision of a unit's half.
fn latest_among(all: &[Filed], unit: u8, half: u16) -> Option<&Filed>
    ensures value { option_map (λ filed. filed.now) result ≡ latest_of unit half all.now }
{
    all.iter()
        .rev()
        .find(|filed| is_filed_for(filed, unit, half))
}

/// Whether a report was filed for this unit and half under this number.
fn is_revision(filed: &Filed, unit: u8, half: u16, revision: u32) -> bool
    ensures value { result ≡ is_revision unit half revision filed.now }
{
    is_filed_for(filed, unit, half) && filed.revision == revision
}

/// The revision with this number of a unit's half.
fn revision_among(all: &[Filed], unit: u8, half: u16, revision: u32) -> Option<&Filed>
    ensures value { option_map (λ filed. filed.now) result ≡ revision_of unit half revision all.now }
{
    all.iter()
        .find(|filed| is_revision(filed, unit, half, revision))
}

/// A copy of a filed report.
fn copied(alloc: Global, filed: &Filed) -> Result<Filed, Memory>
    ensures value { IfOk result (λ copy. copy ≡ filed.now) }
{
    Ok(Filed {
        unit: filed.unit,
        half: filed.half,
        revision: filed.revision,
        day: filed.day,
        cells: copy_of(alloc, &filed.cells)?,
    })
}

impl Filing for MapFiling {
    ghost on_file = { λ f. Some f };

    ghost faults = { λ f. 0 };

    fn latest(&mut self, alloc: Global, unit: u8, half: u16) -> Result<Option<Filed>, FilingFault> {
        match latest_among(&self.all, unit, half) {
            Some(filed) => Ok(Some(copied(alloc, filed)?)),
            None => Ok(None),
        }
    }

    fn revision(
        &mut self,
        alloc: Global,
        unit: u8,
        half: u16,
        revision: u32,
    ) -> Result<Option<Filed>, FilingFault> {
        match revision_among(&self.all, unit, half, revision) {
            Some(filed) => Ok(Some(copied(alloc, filed)?)),
            None => Ok(None),
        }
    }

    fn put(&mut self, alloc: Global, filed: &Filed) -> Result<(), FilingFault> {
        self.keep(alloc, filed)?;
        Ok(())
    }
}
