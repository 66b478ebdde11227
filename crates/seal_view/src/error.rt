ghost use Rattle.std.specs.Prelude.{◌≡◌};
ghost use Rattle.seal_view.specs.View as spec;

use dual_seals::SealError;
use std::alloc::AllocError;

/// Why there is no text.
#[derive(Clone, Copy, Debug, PartialEq, Eq)]
pub enum SealsWhy {
    /// The process unit has not started up by the day.
    NoUnit,
    /// The first bad record of the file, counted from 1 for the header; or the first whose component is no pump of the process unit.
    BadRow { at: u32 },
    Memory,
}

impl From<AllocError> for SealsWhy {
    ghost use Rattle.std.specs.Prelude.{◌≡◌};
    ghost use Rattle.seal_view.specs.declared.error.SealsWhy.TheVariants.{Memory};

    ghost from_gives = { λ _ e. e ≡ Memory };

    fn from(_e: AllocError) -> SealsWhy {
        SealsWhy::Memory
    }
}

/// Why there is no text, from the error of reading the rows.
pub fn why_unread(error: SealError) -> SealsWhy
    ensures value { result ≡ spec.why_unread error }
{
    match error {
        SealError::Row { at } => SealsWhy::BadRow { at },
        SealError::Memory => SealsWhy::Memory,
    }
}
