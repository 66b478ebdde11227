use disk_model::{Disk, DiskFault};
use std::alloc::AllocError;

/// Why a journal was not opened.
#[derive(Clone, Copy, Debug, PartialEq, Eq)]
pub enum OpenWhy {
    /// A disk error.
    Disk,
    /// The bytes do not begin with the header.
    NotAJournal,
    /// The first bad frame begins at this place, or the bytes end there without a closed gate.
    Damaged { at: u64 },
    Memory,
}

impl From<DiskFault> for OpenWhy {
    ghost use Rattle.std.specs.Prelude.{◌≡◌};
    ghost use Rattle.ldar_journal.specs.declared.opening.OpenWhy.TheVariants.{Disk as DiskFailed};

    ghost from_gives = { λ _ e. e ≡ DiskFailed };

    fn from(_e: DiskFault) -> OpenWhy {
        OpenWhy::Disk
    }
}

impl From<AllocError> for OpenWhy {
    ghost use Rattle.std.specs.Prelude.{◌≡◌};
    ghost use Rattle.ldar_journal.specs.declared.opening.OpenWhy.TheVariants.{Memory};

    ghost from_gives = { λ _ e. e ≡ Memory };

    fn from(_e: AllocError) -> OpenWhy {
        OpenWhy::Memory
    }
}

/// A journal was not opened. The disk is returned.
#[derive(Drop)]
pub struct OpenError<D: Disk> {
    pub disk: D,
    pub why: OpenWhy,
}
