ghost use Rattle.std.specs.Prelude.{◌≡◌};
ghost use Rattle.ldar_law.specs.Tags.{is_within as says_within};

use fact_kinds::{Key, precedes};
use ldar_days::Day;

/// The time from the detection of a leak until no leak is unsettled.
#[derive(Clone, Copy, Debug, PartialEq, Eq)]
pub struct Span {
    pub detected: Key,
    /// The day of the first attempt at a repair after the detection.
    pub attempted: Option<Day>,
    /// The fact after which no leak is unsettled.
    pub closed: Option<Key>,
    /// Whether the identification may be removed (40 CFR 60.486a(b)).
    pub removable: bool,
}

impl Span {
    /// Whether the key is after the detection, and before the closing if the tag is closed.
    pub fn is_within(&self, key: &Key) -> bool
        ensures value { result ≡ says_within self.now key.now }
    {
        precedes(&self.detected, key)
            && match &self.closed {
                Some(closed) => precedes(key, closed),
                None => true,
            }
    }
}
