//! Laws about the view of dual mechanical seal pumps: empty functions whose contracts are the laws.

ghost use Rattle.dual_seals.specs.OrderLaws.{SealsForgetOrder};

/// The duties and tags of a pump do not depend on the order of the records in the file, nor on the order of the batches.
pub fn seals_forget_order()
    ensures law { SealsForgetOrder }
{}
