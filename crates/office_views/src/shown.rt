use fact_kinds::Memory;
use ldar_law::{Text, What};

/// What a view shows: its text, or what there is none of.
#[derive(Drop)]
pub enum Shown {
    Text(Text),
    NoSuch(What),
}

/// Why there is no report.
#[derive(Clone, Copy, Debug, PartialEq, Eq)]
pub enum AskError {
    /// There is none of this.
    NoSuch(What),
    Memory,
}

impl From<Memory> for AskError {
    ghost use Rattle.std.specs.Prelude.{◌≡◌};
    ghost use Rattle.office_views.specs.declared.shown.AskError.TheVariants.{Memory as WantsMemory};

    ghost from_gives = { λ _ e. e ≡ WantsMemory };

    fn from(_e: Memory) -> AskError {
        AskError::Memory
    }
}
