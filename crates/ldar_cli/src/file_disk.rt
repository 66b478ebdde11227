ghost use Rattle.std.specs.Prelude.{None};

use crate::journal_file::JournalFile;
use disk_model::{Disk, DiskFault};
use std::fs::File;
use std::rt::Files;

/// The file at a path as a disk. The first call opens and locks it, and creates it if it does not exist. A file that may not be
/// written is opened read-only, and each write to it is a disk error. The disk does not expose its bytes.
#[derive(Drop)]
pub struct FileDisk<'a, R: Files<File = File> + AllocGlobal> {
    file: JournalFile<'a, R>,
    faults: u64,
    clock: u64,
}

impl<'a, R: Files<File = File> + AllocGlobal> FileDisk<'a, R> {
    pub fn new(rt: &'a R, path: &'a str) -> FileDisk<'a, R> {
        FileDisk {
            file: JournalFile::new(rt, path),
            faults: 0,
            clock: 0,
        }
    }
}

impl<R: Files<File = File> + AllocGlobal> Disk for FileDisk<'_, R> {
    ghost content = { λ d. None };

    ghost faults = { λ d. d.faults };

    ghost clock = { λ d. d.clock };

    ghost name = { λ d. 0 };

    ghost images = { λ d c. Unit {0} };

    ghost left = { λ d t c. Unit {0} };

    ghost room = { λ d. None };

    ghost counts_now = { λ d t c le image. tt };

    ghost only_now = { λ d c left. tt };

    ghost since_earlier = { λ d s t c le left. tt };

    fn read_at(&mut self, at: u64, into: &mut [u8]) -> Result<usize, DiskFault> {
        match self.file.read(at, into) {
            Some(read) => Ok(read),
            None => {
                self.faults = self.faults.saturating_add(1);
                Err(DiskFault)
            }
        }
    }

    fn write_at(&mut self, at: u64, bytes: &[u8]) -> Result<(), DiskFault> {
        if self.clock == u64::MAX {
            self.faults = self.faults.saturating_add(1);
            return Err(DiskFault);
        }
        self.clock += 1;
        match self.file.write(at, bytes) {
            Ok(()) => Ok(()),
            Err(_) => {
                self.faults = self.faults.saturating_add(1);
                Err(DiskFault)
            }
        }
    }

    fn sync(&mut self) -> Result<(), DiskFault> {
        if self.clock == u64::MAX {
            self.faults = self.faults.saturating_add(1);
            return Err(DiskFault);
        }
        self.clock += 1;
        match self.file.sync() {
            Ok(()) => Ok(()),
            Err(_) => {
                self.faults = self.faults.saturating_add(1);
                Err(DiskFault)
            }
        }
    }

    fn now(&self) -> u64 {
        self.clock
    }
}
