ghost use Rattle.std.specs.Prelude.{◌≡◌, ◌≢◌, ◌⊎◌, ◌+◌, ◌<◌, ◌≤◌, ℕ, true, false, length, slice_get, slice_set, Some, IfSome, IsNone};
ghost use Rattle.batch_positions.specs.Links.{at_position};
ghost use Rattle.batch_positions.specs.Index.{identity_at, IsLastOf, AreRuns, SkipsTo};

use crate::entry::Entry;
use crate::links::at_position;
use fact_kinds::Identity;

/// The last position of a handheld's run, or 0 if it has none.
pub fn head_of(heads: &[u32], handheld: u16) -> u32
    requires { length heads.now ≡ 65_536 }
    ensures value { slice_get heads.now handheld ≡ Some result }
{
    heads[usize::from(handheld)]
}

/// Sets the last position of a handheld's run.
pub fn set_head(heads: &mut Vec<u32>, handheld: u16, link: u32)
    requires { length heads.old.items ≡ 65_536 }
    ensures value { heads.new.items ≡ slice_set heads.old.items handheld link }
{
    heads[usize::from(handheld)] = link;
}

/// Whether a number is above the last one of a run.
pub fn is_above(entries: &[Entry], head: u32, number: u32) -> bool
    ensures above { result ≡ true → (last : Entry) → at_position entries.now head ≡ Some last → last.number < number }
{
    match at_position(entries, head) {
        Some(last) => last.number < number,
        None => true,
    }
}

/// The next entry of a run, for this identity.
pub fn next_in_run(entries: &[Entry], head: u32, identity: Identity) -> Entry
    ensures identity { identity_at result ≡ identity }
    ensures in_run { result.late ≡ false }
    ensures earlier { result.earlier ≡ head }
{
    let (far, rank) = skip_behind(entries, head);
    Entry {
        number: identity.number,
        earlier: head,
        far,
        handheld: identity.handheld,
        late: false,
        rank,
    }
}

/// The link `far` of a run's next entry, and its rank. Two skips of one rank are followed by one of the next rank, so that
/// a look-up needs few steps.
fn skip_behind(entries: &[Entry], head: u32) -> (u32, u8) {
    let Some(last) = at_position(entries, head) else {
        return (0, 1);
    };
    match at_position(entries, last.far) {
        Some(far) if far.rank == last.rank => (far.far, last.rank.saturating_add(1)),
        _ => (head, 1),
    }
}

/// The position of an identity in its handheld's run, or `None` if it is not there.
pub fn position_in_run(entries: &[Entry], head: u32, identity: Identity) -> Option<u32>
    requires head { IsLastOf entries.now identity.handheld (length entries.now + 1) head }
    requires runs { AreRuns entries.now }
    ensures found { IfSome result (λ at. (entry : Entry) × (at_position entries.now at ≡ Some entry) × (identity_at entry ≡ identity)) }
    ensures none { IsNone result → (at : ℕ) (entry : Entry) → at_position entries.now at ≡ Some entry → entry.late ≡ false → identity_at entry ≢ identity }
{
    let mut link = head;
    while let Some(entry) = at_position(entries, link) {
        if entry.number == identity.number {
            return Some(link);
        }
        if entry.number < identity.number {
            return None;
        }
        link = back_from(entries, link, &entry, identity.number);
    }
    None
}

/// The next entry to look at after one whose number is too great.
fn back_from(entries: &[Entry], place: u32, entry: &Entry, number: u32) -> u32
    ensures value { (result ≡ entry.now.earlier) ⊎ SkipsTo entries.now place entry.now.handheld number result }
{
    if entry.far >= place {
        return entry.earlier;
    }
    match at_position(entries, entry.far) {
        Some(far) if !far.late && far.handheld == entry.handheld && far.number >= number => {
            entry.far
        }
        _ => entry.earlier,
    }
}
