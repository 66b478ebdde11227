//! Lists by number. Room for elements is made first, so that adding one allocates nothing.
//!
//! The places of a store by component, unit and instrument are such lists, and so are the classes and members of a register:
//! growing, making room and adding are proved once.

ghost use Rattle.std.specs.Prelude.{◌≡◌, ℕ, ◌+◌, ◌<◌, ◌≤◌, Some, nat_eq, unwrap_or, if◌then◌else◌, IfOk, OnOk, vec_len, count_by, length};
ghost use Rattle.std.specs.HashMap.{get};
ghost use Rattle.fact_store.specs.Lists.{value_at, items_in, room_in, OnlyGrow, HaveRoomForEach, PutsIn, Pushes};

use std::alloc::{AllocError, Global};
use std::collections::HashMap;

/// Lists by number. A missing one is empty.
pub type Lists<T> = Vec<Vec<T>>;

/// The list of a number.
pub fn list_of<T>(lists: &Lists<T>, number: u16) -> &[T]
    ensures value { result.now ≡ items_in lists.now.items number }
{
    let at = usize::from(number);
    if at < lists.len() {
        lists[at].as_slice()
    } else {
        &[]
    }
}

/// Appends empty lists until there are `count`.
fn grow<T: Drop>(alloc: Global, lists: &mut Lists<T>, count: usize) -> Result<(), AllocError>
    ensures grows { OnlyGrow lists.old.items lists.new.items }
    ensures long { OnOk result (count ≤ vec_len lists.new) }
{
    while lists.len() < count {
        lists.push(Vec::new(alloc))?;
    }
    Ok(())
}

/// Makes room for this many more elements in the list at a place.
fn make_room<T: Drop>(
    alloc: Global,
    lists: &mut Lists<T>,
    at: usize,
    count: usize,
) -> Result<(), AllocError>
    requires few { at < usize.MAX }
    ensures grows { OnlyGrow lists.old.items lists.new.items }
    ensures roomy { OnOk result (count ≤ room_in lists.new.items at) }
{
    grow(alloc, lists, at + 1)?;
    lists[at].reserve(count)
}

/// Adds one to the count of a number, and returns the new count.
fn count_up(counts: &mut HashMap<u16, usize>, number: u16) -> Result<usize, AllocError>
    requires { unwrap_or (get nat_eq counts.old number) 0 < usize.MAX }
    ensures value { IfOk result (λ count. count ≡ unwrap_or (get nat_eq counts.old number) 0 + 1) }
    ensures others { OnOk result ((q : ℕ) → unwrap_or (get nat_eq counts.new q) 0
        ≡ unwrap_or (get nat_eq counts.old q) 0 + (if nat_eq number q then 1 else 0)) }
{
    let count = counts.entry(number)?.or_insert(0);
    *count += 1;
    Ok(*count)
}

/// Makes room for one more element in the list of each of these numbers, once for each time it occurs. When out of
/// memory, the lists have the same elements.
pub fn make_rooms<T: Drop>(
    alloc: Global,
    lists: &mut Lists<T>,
    numbers: &[u16],
) -> Result<(), AllocError>
    ensures grows { OnlyGrow lists.old.items lists.new.items }
    ensures roomy { OnOk result (HaveRoomForEach numbers.now lists.new.items) }
{
    let mut counts = HashMap::new(alloc);
    for number in numbers {
        let count = count_up(&mut counts, *number)?;
        make_room(alloc, lists, usize::from(*number), count)?;
    }
    Ok(())
}

/// Inserts an element into the list of a number, at an index. It allocates nothing, since there is room.
pub fn put_in<T: Drop>(lists: &mut Lists<T>, number: u16, index: usize, element: T)
    requires roomy { 0 < room_in lists.old.items number }
    requires within { index ≤ length (items_in lists.old.items number) }
    ensures value { PutsIn number index element lists.old.items lists.new.items }
{
    // There is room, so this cannot fail.
    let _ = lists[usize::from(number)].insert(index, element);
}

/// Makes room in the list of each number for as many more elements as its count. When out of memory, the lists have
/// the same elements.
pub fn make_rooms_for<T: Drop>(
    alloc: Global,
    lists: &mut Lists<T>,
    counts: &[usize],
) -> Result<(), AllocError>
    ensures grows { OnlyGrow lists.old.items lists.new.items }
    ensures roomy { OnOk result ((n : ℕ) → value_at (λ c. c) 0 counts.now n ≤ room_in lists.new.items n) }
{
    for at in 0..counts.len() {
        make_room(alloc, lists, at, counts[at])?;
    }
    Ok(())
}

/// Appends an element to the list of a number. It allocates nothing, since there is room.
pub fn push_in<T: Drop>(lists: &mut Lists<T>, number: u16, element: T)
    requires roomy { 0 < room_in lists.old.items number }
    ensures value { Pushes (Some number) element lists.old.items lists.new.items }
{
    lists[usize::from(number)].push_reserved(element);
}
