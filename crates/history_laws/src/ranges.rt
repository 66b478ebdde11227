//! Laws about a register whose facts have all fields in range, as every fact has.

ghost use Rattle.history_laws.specs.RangeLaws.{FactsAreInRange, PartIsInRange, StartupsAreDays, ComponentsStandInRange, MembersAreInRange, MembersFit};

/// If the facts of batches are in range, so are the history's facts with their keys, and a part of them.
pub fn facts_in_range()
    ensures law { FactsAreInRange }
    ensures part { PartIsInRange }
{}

/// Startups and beginnings are days of the calendar, and numbers of components and process units are in their ranges.
pub fn register_in_range()
    ensures units { StartupsAreDays }
    ensures components { ComponentsStandInRange }
{}

/// The members of a process unit are numbers of components, at most 60,000.
pub fn members_in_range()
    ensures law { MembersAreInRange }
    ensures few { MembersFit }
{}
