//! Laws about the lists that decide on a component: its own facts, its instruments' tests, and what is entered for its
//! process unit.

ghost use Rattle.history_laws.specs.KnownLaws.{KnownByItsLists, ComponentsByTheirLists, FitnessIsOfWhatMatters};
ghost use Rattle.history_laws.specs.KnownLaws.{SameTestsMatter, SameFactsJudgeAlike, SameListsKnowAlike, KnownUpToADay};

/// A component follows from the lists that a store keeps as it follows from all facts: the facts that name it, the
/// tests of each instrument, and the facts that name its process unit. The same holds for all components of a process
/// unit.
pub fn known_by_its_lists()
    ensures law { KnownByItsLists }
    ensures unit { ComponentsByTheirLists }
{}

/// The fitness of a reading depends only on the calibrations and drift assessments of its instrument on its day and the
/// precision tests of three months. Two lists with the same tests of the instrument have the same ones.
pub fn fitness_is_of_what_matters()
    ensures law { FitnessIsOfWhatMatters }
    ensures same_tests { SameTestsMatter }
{}

/// If two lists of facts have the same facts that name a component and the same ones that matter to its readings, the
/// component has the same entry, classes and events by both, whatever is entered for its process unit.
pub fn same_facts_judge_alike()
    ensures law { SameFactsJudgeAlike }
{}

/// If what is entered for its process unit is the same too, the two lists agree on everything about the component.
pub fn same_lists_know_alike()
    ensures law { SameListsKnowAlike }
{}

/// A component on a day has the classes, events and shutdowns from all facts, up to that day.
pub fn known_up_to_a_day()
    ensures law { KnownUpToADay }
{}
