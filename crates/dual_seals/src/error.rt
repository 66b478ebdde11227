use std::alloc::AllocError;

/// The reason why a seal file has no rows.
#[derive(Clone, Copy, Debug, PartialEq, Eq)]
pub enum SealError {
    /// The first bad record, counted from 1 for the header.
    Row { at: u32 },
    Memory,
}

impl From<AllocError> for SealError {
    ghost use Rattle.std.specs.Prelude.{◌≡◌};
    ghost use Rattle.dual_seals.specs.declared.error.SealError.TheVariants.{Memory};

    ghost from_gives = { λ _ e. e ≡ Memory };

    fn from(_e: AllocError) -> SealError {
        SealError::Memory
    }
}
