//! An office as it is asked for its components. Batches in doubt do not count, and the disk is not called.

ghost use Rattle.ldar_journal.specs.Image.{batches_of};

use crate::Memory;
use crate::book::Book;
use component_histories::Histories;
use disk_model::Disk;
use ldar_days::Day;
use ldar_law::{Equipment, History};
use std::alloc::Global;

impl<D: Disk> Histories for Book<D> {
    ghost kept = { λ book. batches_of book.frames };

    fn has_unit(&self, unit: u16, day: Day) -> bool {
        self.archive.has_unit(unit, day)
    }

    fn equipment(&self, component: u16, day: Day) -> Option<Equipment> {
        self.archive.equipment(component, day)
    }

    fn events(
        &mut self,
        _alloc: Global,
        component: u16,
        day: Day,
    ) -> Result<Option<History>, Memory> {
        self.archive.events(component, day)
    }
}
