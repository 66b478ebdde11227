ghost use Rattle.std.specs.Prelude.{◌≡◌};
ghost use Rattle.fact_kinds.specs.Facts.{is_earlier};

use crate::key::Key;

/// Whether the first key is earlier: by day, minute, handheld, batch number and index.
pub fn precedes(a: &Key, b: &Key) -> bool
    ensures value { result ≡ is_earlier a.now b.now }
{
    a < b
}
