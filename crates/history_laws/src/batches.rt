//! Laws about the facts of a history and of one more batch.

ghost use Rattle.history_laws.specs.MoreLaws.{PartOfMoreFacts, PartStays, ListsGrow, RegisterGrows, MembersGrow, LeftAloneIsKnownAlike};

/// After one more batch, a part of the facts is the old part with the same part of the batch inserted in key order.
pub fn part_grows()
    ensures law { PartOfMoreFacts }
    ensures stays { PartStays }
{}

/// Each list of a store grows in this way: by component, process unit, instrument and reading, and of the register.
pub fn lists_grow()
    ensures law { ListsGrow }
{}

/// The lists of the register grow in this way: classes, elections and members.
pub fn register_grows()
    ensures by_key { RegisterGrows }
    ensures members { MembersGrow }
{}

/// A component that a batch does not affect is the same with the batch and without it, on each day.
pub fn left_alone()
    ensures law { LeftAloneIsKnownAlike }
{}
