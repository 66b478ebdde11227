//! Laws about readings: some of the facts are enough to judge them.

ghost use Rattle.ldar_law.specs.ReadingLaws.{EventsAreJudgedInOrder, ReadingsAreOfInstrument, EventsAscend, FitnessIsOfInstrument};

/// The fitness of a reading depends only on the facts of its instrument.
pub fn fitness_is_of_instrument()
    ensures law { FitnessIsOfInstrument }
{}

/// Judging each reading in its place gives the same events as judging from a list of the readings' fitnesses.
pub fn events_are_judged_in_order()
    ensures law { EventsAreJudgedInOrder }
{}

/// The fitness of a reading's entry depends only on the facts of its instrument.
pub fn readings_are_of_instrument()
    ensures law { ReadingsAreOfInstrument }
{}

/// The events of a component are in key order if the facts are.
pub fn events_ascend()
    ensures law { EventsAscend }
{}
