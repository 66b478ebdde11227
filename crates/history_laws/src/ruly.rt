//! Laws about ruly histories, in which each batch passes after those before it.

ghost use Rattle.history_laws.specs.RulyLaws.{DaysAreInBound, StartupsAreInBound, BeginningsAreInBound, StartupIsOfFact, BeginningIsOfFact};
ghost use Rattle.history_laws.specs.RulyLaws.{EachIsEnteredOnce, PartHasEachOnce, PassingBatchEntersFirst, MembersAscend, MembersAreFew, MembersStandInUnit};
ghost use Rattle.history_laws.specs.RulyLaws.{ComponentsAreMembers, WhatIsAskedWasEntered, UnitOfComponentIsEntered, OneMorePasses, RulyGivesRegister};

/// Each day of a ruly history's facts is at most 2097-12-31 (our own rule).
pub fn days_in_bound()
    ensures law { DaysAreInBound }
{}

/// If the days of some facts have a bound, so have the startups and the beginnings of components.
pub fn startups_in_bound()
    ensures units { StartupsAreInBound }
    ensures components { BeginningsAreInBound }
{}

/// A startup is the day of a fact that enters the process unit; a beginning is the day of a fact that enters the
/// component.
pub fn days_are_of_facts()
    ensures units { StartupIsOfFact }
    ensures components { BeginningIsOfFact }
{}

/// In a ruly history, and in a part of its facts, each component and each process unit is entered only once.
pub fn entered_once()
    ensures law { EachIsEnteredOnce }
    ensures part { PartHasEachOnce }
{}

/// A fact of a passing batch enters nothing that an earlier fact enters.
pub fn entered_first()
    ensures law { PassingBatchEntersFirst }
{}

/// If each component is entered only once, the members of a process unit ascend, and are at most as many as there are
/// numbers.
pub fn members_ascend()
    ensures law { MembersAscend }
    ensures few { MembersAreFew }
{}

/// If each component is entered only once, the members of a process unit are the components whose unit it is.
pub fn members_stand_in_unit()
    ensures members { MembersStandInUnit }
    ensures components { ComponentsAreMembers }
{}

/// In a ruly history, each process unit and each component that a fact needs was entered.
pub fn asked_was_entered()
    ensures law { WhatIsAskedWasEntered }
    ensures unit { UnitOfComponentIsEntered }
{}

/// A history with one more batch is ruly exactly if it was ruly before and the batch passes after it.
pub fn one_more_passes()
    ensures law { OneMorePasses }
{}

/// What holds for the facts of a ruly history, and for those up to each day: startups in bound, numbers entered only once,
/// and members that ascend.
pub fn register_of_ruly_history()
    ensures law { RulyGivesRegister }
{}
