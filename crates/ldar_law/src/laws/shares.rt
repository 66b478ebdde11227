//! Laws about the numbers of valves in service and of difficult-to-monitor valves, counted fact by fact (40 CFR
//! 60.482-7a(h)(2)(ii)).

ghost use Rattle.ldar_law.specs.ShareLaws.{ValvesAreCounted, OneMoreFactCounts, OtherFactsCountNothing, MembersCount};

/// The valves in service, and the difficult ones among them, are the components that pass the test, each once.
pub fn valves_are_counted()
    ensures law { ValvesAreCounted }
{}

/// One more fact changes a count only by what its component adds.
pub fn one_more_fact()
    ensures law { OneMoreFactCounts }
{}

/// A fact that names no component does not change a count.
pub fn other_facts()
    ensures law { OtherFactsCountNothing }
{}

/// If no component was entered twice, a count is the sum of what the members of the process unit add.
pub fn members_count()
    ensures law { MembersCount }
{}
