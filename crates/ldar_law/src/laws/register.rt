//! Laws about the register.

ghost use Rattle.ldar_law.specs.RegisterLaws.{OwnFactsSuffice, UnitFactsSuffice, UnitFactsJudge, RegisterFactsSuffice, ComponentWhereEntered};
ghost use Rattle.ldar_law.specs.RegisterLaws.{UnitWhereEntered, ClassWhereEntered, MembersAreEntered, RetiredBySome, OneMoreFactInForce};

/// The facts that name a component have everything that the register has about it.
pub fn own_facts_suffice()
    ensures law { OwnFactsSuffice }
{}

/// The facts that name a process unit have everything that the register has about it, and everything that decides on its
/// components.
pub fn unit_facts_suffice()
    ensures law { UnitFactsSuffice }
    ensures judges { UnitFactsJudge }
{}

/// The entries in the register have everything that the register has.
pub fn register_facts_suffice()
    ensures law { RegisterFactsSuffice }
{}

/// A component, and a class of it in force on each day, exist exactly if some fact enters it.
pub fn component_where_entered()
    ensures law { ComponentWhereEntered }
{}

/// A process unit exists exactly if some fact enters it.
pub fn unit_where_entered()
    ensures law { UnitWhereEntered }
{}

/// A last class by a day exists exactly if some fact of that day or before enters one.
pub fn class_where_entered()
    ensures law { ClassWhereEntered }
{}

/// The members of a process unit are the components that facts enter in it, ascending by number.
pub fn members_are_entered()
    ensures law { MembersAreEntered }
{}

/// A component is retired on a day exactly if some fact of that day or before retires it.
pub fn retired_by_some()
    ensures law { RetiredBySome }
{}

/// After one more fact, the class in force is the later of the one before and the one that the fact enters.
pub fn one_more_fact_in_force()
    ensures law { OneMoreFactInForce }
{}
