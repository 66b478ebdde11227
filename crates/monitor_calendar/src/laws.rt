//! Laws about the duties of a component among those of its process unit: empty functions whose contracts are the laws.

ghost use Rattle.monitor_calendar.specs.DutiesOfUnit.{PartStandsInList, PartIsOwn};

/// With the unit's skipped quarters, the duties of a component are in the unit's list, between those of the components
/// before it and after it.
pub fn part_stands_in_list()
    ensures law { PartStandsInList }
{}

/// They are all that the unit's list has for the component, if no other component of the unit has its number.
pub fn part_is_own()
    ensures law { PartIsOwn }
{}
