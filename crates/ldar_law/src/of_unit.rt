use crate::delay::Stop;
use crate::items::Items;

/// What the facts enter for a process unit that decides on its components, as one value.
#[derive(Drop)]
pub struct OfUnit {
    /// The unit's shutdowns, in key order.
    pub stops: Items<Stop>,
}
