ghost use Rattle.std.specs.Prelude.{◌≡◌};
ghost use Rattle.batch_positions.specs.Index.{late_entry};

use fact_kinds::Identity;

/// The index's record of the identity at a position. Links are positions from 1, and 0 is no link.
#[derive(Clone, Copy)]
pub struct Entry {
    pub number: u32,
    /// For an entry in a run: the entry before it in its handheld's run.
    pub earlier: u32,
    /// For an entry in a run: an earlier entry, so that a look-up skips those between. It is a hint.
    pub far: u32,
    pub handheld: u16,
    /// Whether the entry is in no run, because its number was not above those before it.
    pub late: bool,
    /// The number of entries that the link `far` skips, as a power of two. It is a hint.
    pub rank: u8,
}

impl Entry {
    /// The entry of an identity that is in no run.
    pub fn late(identity: Identity) -> Entry
        ensures value { result ≡ late_entry identity }
    {
        Entry {
            number: identity.number,
            earlier: 0,
            far: 0,
            handheld: identity.handheld,
            late: true,
            rank: 0,
        }
    }
}
