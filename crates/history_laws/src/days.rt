//! Laws about the facts up to a day and all facts: the register, readings and events from each of the two.

ghost use Rattle.history_laws.specs.DayLaws.{HistoryIsInOrder, AscendingAreInOrder, PartIsInOrder, PartUpToADay, FactsAreCut, ComponentsUpToADay};
ghost use Rattle.history_laws.specs.DayLaws.{UnitsUpToADay, StandingForgetsLaterDays, MembersUpToADay, ComponentsAreOfAllMembers};
ghost use Rattle.history_laws.specs.DayLaws.{FitnessForgetsLaterDays, EventsUpToADay, EventsByOwnRegister, LimitsAgree, EventsAreCut};

/// The facts of a history are in order; so are ascending facts, and a part of facts in order.
pub fn facts_in_order()
    ensures history { HistoryIsInOrder }
    ensures ascending { AscendingAreInOrder }
    ensures part { PartIsInOrder }
{}

/// Facts in order are those up to a day, followed by the others; so is each part of them.
pub fn facts_are_cut()
    ensures part { PartUpToADay }
    ensures law { FactsAreCut }
{}

/// The register's components and process units from the facts up to a day, in terms of those from all facts.
pub fn register_up_to_a_day()
    ensures components { ComponentsUpToADay }
    ensures units { UnitsUpToADay }
{}

/// On a day up to the view day, a component has the same class and service by the facts up to the view day as by all.
pub fn standing_forgets_later_days()
    ensures law { StandingForgetsLaterDays }
{}

/// The members of a process unit by the facts up to a day are those members that have begun by then.
pub fn members_up_to_a_day()
    ensures members { MembersUpToADay }
    ensures components { ComponentsAreOfAllMembers }
{}

/// A reading up to the view day has the same fitness by the facts up to the view day as by all.
pub fn fitness_forgets_later_days()
    ensures law { FitnessForgetsLaterDays }
{}

/// The events from the facts up to a day are the events up to that day from all facts, even if the class changes or the
/// component retires later. It holds for every leak definition, and for two that agree up to the day, as the rule's do.
pub fn events_up_to_a_day()
    ensures register { EventsUpToADay }
    ensures own { EventsByOwnRegister }
    ensures limits { LimitsAgree }
{}

/// The events up to a day are a prefix of all events.
pub fn events_are_cut()
    ensures law { EventsAreCut }
{}
