ghost use Rattle.std.specs.Prelude.{◌≡◌, ℕ, ◌<◌, Some, OnOk, length, nat_eq, if◌then◌else◌};
ghost use Rattle.std.specs.Option.{option_map};
ghost use Rattle.unit_summaries.specs.Rows.{slot_in};

use fact_kinds::Memory;

/// The element at a number, if there is one.
pub fn slot_at<T>(slots: &Vec<Option<T>>, number: u16) -> Option<&T>
    ensures value { option_map (λ slot. slot.now) result ≡ slot_in slots.now.items number }
{
    match slots.get(usize::from(number)) {
        Some(Some(slot)) => Some(slot),
        _ => None,
    }
}

/// Makes a place for each number up to one.
pub fn make_slots<T: Drop>(slots: &mut Vec<Option<T>>, number: u16) -> Result<(), Memory>
    ensures value { (n : ℕ) → slot_in slots.new.items n ≡ slot_in slots.old.items n }
    ensures within { OnOk result (number < length slots.new.items) }
{
    while slots.len() <= usize::from(number) {
        slots.push(None)?;
    }
    Ok(())
}

/// Puts an element at its place.
pub fn put_slot<T: Drop>(slots: &mut Vec<Option<T>>, number: u16, slot: T)
    requires within { number < length slots.old.items }
    ensures value { (n : ℕ) → slot_in slots.new.items n ≡ (if nat_eq n number then Some slot else slot_in slots.old.items n) }
{
    slots[usize::from(number)] = Some(slot);
}
