//! Laws about what a batch touches: a component or a process unit that it does not touch has the same facts with the
//! batch and without it.

ghost use Rattle.history_laws.specs.TouchLaws.{NotTouchedIsUntouched, UntouchedStays, TouchedStays, UnnamedUnitStays};

/// If a component is not touched, no new fact names it or matters to a reading of it. A batch that does not touch it changes
/// neither its own facts nor the facts that matter to its readings.
pub fn untouched_components()
    ensures law { NotTouchedIsUntouched }
    ensures stays { UntouchedStays }
{}

/// A component that is touched stays touched when more facts arrive.
pub fn touched_components()
    ensures law { TouchedStays }
{}

/// A batch that does not name a process unit does not change what is entered for it.
pub fn unnamed_units()
    ensures law { UnnamedUnitStays }
{}
