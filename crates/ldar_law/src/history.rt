use crate::equipment::Equipment;
use crate::event::Event;
use crate::items::Items;

/// A component as facts enter it, and what happened at it: its judged events, in key order.
#[derive(Drop)]
pub struct History {
    pub equipment: Equipment,
    pub events: Items<Event>,
}
