ghost use Rattle.std.specs.Prelude.{◌≡◌};
ghost use Rattle.ldar_law.specs.Fitness.{is_fit as says_fit};

use fact_kinds::Key;

/// Whether a reading is fit to be used (40 CFR 60.485a(b); EPA Method 21, sections 8.1.2 and 10.1), and if not, the
/// first reason.
#[derive(Clone, Copy, Debug, PartialEq, Eq)]
pub enum Fitness {
    Fit,
    /// The instrument was not calibrated earlier on the day.
    NoCalibration,
    /// Each calibration of the day used a gas of more than the leak definition plus 2,000 parts per million.
    GasTooHigh,
    /// No earlier precision test that is at most three months old passed.
    NoPrecision,
    /// The drift assessment with this key, the first such one, voids the reading (40 CFR 60.485a(b)(2)).
    Voided { drift: Key },
}

impl Fitness {
    /// Whether the reading may be used.
    pub fn is_fit(&self) -> bool
        ensures value { result ≡ says_fit self.now }
    {
        matches!(*self, Fitness::Fit)
    }
}
