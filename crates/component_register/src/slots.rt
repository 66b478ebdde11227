ghost use Rattle.std.specs.Prelude.{◌≡◌, ℕ, ◌+◌, ◌<◌, ◌≤◌, OnOk, vec_len, length};
ghost use Rattle.component_register.specs.Slots.{row_in, no_slot, slot_with, earlier_day, HasRow, HaveRows, OnlyAdds, SetsRow, TakesEntry};
ghost use Rattle.fact_kinds.specs.Named as named;

use crate::entered::{component_entered, retires};
use fact_kinds::{Fact, FactBody, Key, Memory, component_of};
use ldar_days::Day;
use ldar_law::Equipment;

/// What the register holds of a component, apart from its classes.
#[derive(Clone, Copy)]
pub struct Slot {
    /// The component as it was entered, with no retirement.
    pub entered: Option<Equipment>,
    /// The first day from which it is out of service.
    pub retired: Option<Day>,
}

/// A component of which nothing was entered.
pub const EMPTY: Slot = Slot {
    entered: None,
    retired: None,
};

/// The row of a number; an empty one where there is none.
pub fn row_of<T: Copy>(rows: &[T], empty: T, number: u16) -> T
    ensures value { result ≡ row_in empty rows.now number }
{
    let at = usize::from(number);
    if at < rows.len() { rows[at] } else { empty }
}

/// Adds empty rows until there is this number of them.
fn add_rows<T: Copy>(rows: &mut Vec<T>, empty: T, count: usize) -> Result<(), Memory>
    ensures adds { OnlyAdds empty rows.old.items rows.new.items }
    ensures long { OnOk result (count ≤ vec_len rows.new) }
{
    while rows.len() < count {
        rows.push(empty)?;
    }
    Ok(())
}

/// Makes a row of a number, if there is a number.
pub fn make_row<T: Copy>(rows: &mut Vec<T>, empty: T, number: Option<u16>) -> Result<(), Memory>
    ensures adds { OnlyAdds empty rows.old.items rows.new.items }
    ensures roomy { OnOk result (HasRow number rows.new.items) }
{
    match number {
        Some(number) => add_rows(rows, empty, usize::from(number) + 1),
        None => Ok(()),
    }
}

/// Writes the row of a number.
pub fn set_row<T: Copy>(rows: &mut Vec<T>, number: u16, row: T)
    requires { number < length rows.old.items }
    ensures value { SetsRow number row rows.old.items rows.new.items }
{
    rows[usize::from(number)] = row;
}

/// The earlier of a day and another, if there is one.
fn earlier(day: Day, other: Option<Day>) -> Option<Day>
    ensures value { result ≡ earlier_day day other }
{
    match other {
        Some(first) if first <= day => Some(first),
        _ => Some(day),
    }
}

/// What the register holds of a component when a fact of this day has come.
fn slot_after(slot: Slot, number: u16, day: Day, body: &FactBody) -> Slot
    ensures value { result ≡ slot_with number day body.now slot }
{
    Slot {
        entered: component_entered(number, &None, day, body).or(slot.entered),
        retired: if retires(number, body) {
            earlier(day, slot.retired)
        } else {
            slot.retired
        },
    }
}

/// Makes slots for the components that these facts name.
pub fn make_slots(slots: &mut Vec<Slot>, facts: &[Fact]) -> Result<(), Memory>
    ensures adds { OnlyAdds no_slot slots.old.items slots.new.items }
    ensures roomy { OnOk result (HaveRows named.component_of facts.now slots.new.items) }
{
    for fact in facts {
        make_row(slots, EMPTY, component_of(&fact.body))?;
    }
    Ok(())
}

/// Enters what a fact with this key says of the component that it names.
pub fn enter(slots: &mut Vec<Slot>, key: &Key, body: &FactBody)
    requires { HasRow (named.component_of body.now) slots.old.items }
    ensures value { TakesEntry key.now.day body.now slots.old.items slots.new.items }
{
    if let Some(component) = component_of(body) {
        let slot = row_of(slots, EMPTY, component);
        set_row(slots, component, slot_after(slot, component, key.day, body));
    }
}
