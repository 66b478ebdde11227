use fact_kinds::Memory;
use ldar_days::Day;

/// The reason why no report was made.
#[derive(Clone, Copy, Debug, PartialEq, Eq)]
pub enum ReportError {
    /// The half does not exist, or begins after the day of the view. `first` is its first day; for half 0, that of half 1.
    NoHalf { first: Day },
    Memory,
}

impl From<Memory> for ReportError {
    ghost use Rattle.std.specs.Prelude.{◌≡◌};
    ghost use Rattle.semiannual_report.specs.declared.error.ReportError.TheVariants.{Memory};

    ghost from_gives = { λ _ e. e ≡ Memory };

    fn from(_e: Memory) -> ReportError {
        ReportError::Memory
    }
}
