ghost use Rattle.std.specs.Prelude.{◌≡◌};
ghost use Rattle.leak_tags.specs.OpenLeaks as spec;

/// The months since the last leak with a counting reading below the leak definition, as far as a later reading depends
/// on them (40 CFR 60.482-9a(f)).
#[derive(Clone, Copy)]
pub struct BelowMonths {
    /// The last such month, or 0 for none.
    pub last: u32,
    /// Whether the month before it is one too.
    pub before: bool,
}

impl BelowMonths {
    /// No such month.
    pub fn none() -> BelowMonths
        ensures value { result ≡ spec.no_months }
    {
        BelowMonths {
            last: 0,
            before: false,
        }
    }

    /// Whether the month before this one is such a month.
    pub fn is_second(self, month: u32) -> bool
        ensures value { result ≡ spec.is_second self month }
    {
        if month == self.last {
            return self.before;
        }
        month.saturating_sub(1) == self.last
    }
}
