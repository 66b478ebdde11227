use fact_kinds::Memory;

/// The reason why a file has no batches.
#[derive(Clone, Copy, Debug, PartialEq, Eq)]
pub enum ImportError {
    /// The first bad row, counted from 1, or 0 if the text is not a document of the required form.
    Row { at: u32 },
    Memory,
}

impl From<Memory> for ImportError {
    ghost use Rattle.std.specs.Prelude.{◌≡◌};
    ghost use Rattle.register_import.specs.declared.error.ImportError.TheVariants.{Memory};

    ghost from_gives = { λ _ e. e ≡ Memory };

    fn from(_e: Memory) -> ImportError {
        ImportError::Memory
    }
}
