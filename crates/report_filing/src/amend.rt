ghost use Rattle.std.specs.Prelude.{◌≡◌, ◌<◌, ◌++◌, length, IfOk, OnOk};
ghost use Rattle.std.specs.Option.{option_to_list};
ghost use Rattle.ldar_law.specs.Reports as law;

use fact_kinds::Memory;
use ldar_law::{Amended, Cells};
use std::alloc::Global;

/// The numbers of a report: six for each of six months.
const PLACES: usize = 36;

/// The change at a place of the 36, if there is one.
#[tactic(auto, unfolding(ldar_law::specs::Reports::amended_at))]
fn amended_at(old: &[u32], new: &[u32], place: usize) -> Option<Amended>
    requires old { place < length old.now }
    requires new { place < length new.now }
    requires within { place < PLACES }
    ensures value { result ≡ law.amended_at old.now new.now place }
{
    if old[place] == new[place] {
        return None;
    }
    Some(Amended {
        month: (place / 6 + 1) as u8,
        column: (place % 6 + 1) as u8,
        old: old[place],
        new: new[place],
    })
}

/// Adds a change, if there is one.
fn put(changes: &mut Vec<Amended>, change: Option<Amended>) -> Result<(), Memory>
    ensures put { OnOk result (changes.new.items ≡ changes.old.items ++ option_to_list change) }
{
    if let Some(change) = change {
        changes.push(change)?;
    }
    Ok(())
}

/// The numbers that differ between two reports, in order of place: those that the later one amends (40 CFR
/// 60.487a(c)(2)).
#[tactic(auto, using(list_words::proofs::RangeLemmas::ranges))]
pub fn amended_cells(alloc: Global, old: &Cells, new: &Cells) -> Result<Vec<Amended>, Memory>
    ensures value { IfOk result (λ changes. changes.items ≡ law.amended old.now new.now) }
{
    let mut changes = Vec::new(alloc);
    let (before, now) = (old.months.as_slice(), new.months.as_slice());
    for place in 0..PLACES {
        put(&mut changes, amended_at(before, now, place))?;
    }
    Ok(changes)
}
