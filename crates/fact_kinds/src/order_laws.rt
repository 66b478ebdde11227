//! Laws of the facts of batches in key order: empty functions whose contracts are the laws.

ghost use Rattle.fact_kinds.specs.Facts.{IsOrderFree, IdentitiesStay, FactsAscend, FactsAreThoseOf, FactsCount, ViewDayCuts, CutOfFacts, OneMoreBatch};

/// The facts do not depend on the order in which the batches arrive.
pub fn order_free()
    ensures law { IsOrderFree }
{}

/// Whether all identities differ does not depend on the order of the batches either.
pub fn identities_stay()
    ensures law { IdentitiesStay }
{}

/// The facts are in key order.
pub fn facts_ascend()
    ensures law { FactsAscend }
{}

/// The facts of a history are exactly the facts in its batches, with their keys.
pub fn facts_are_those_of()
    ensures law { FactsAreThoseOf }
{}

/// The number of facts is the sum over the batches.
pub fn facts_count()
    ensures law { FactsCount }
{}

/// The facts up to a view day are a prefix of all facts.
pub fn view_day_cuts()
    ensures law { ViewDayCuts }
{}

/// A fact has the facts with earlier keys before it and those with later keys after it.
pub fn cut_of_facts()
    ensures law { CutOfFacts }
{}

/// A further batch inserts each of its facts at its place among the others.
pub fn one_more_batch()
    ensures law { OneMoreBatch }
{}
