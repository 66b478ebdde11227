//! Laws about duties and marks on a view day, by the register of all facts.

ghost use Rattle.history_laws.specs.DutyLaws.{DutiesForgetLaterRegister, MarksForgetLaterRegister};

/// A component that has begun by the view day owes the same duties, and adds the same to a quarter's counts, by the classes
/// and the retirement known on that day as by all.
pub fn duties_forget_later_register()
    ensures duties { DutiesForgetLaterRegister }
    ensures marks { MarksForgetLaterRegister }
{}
