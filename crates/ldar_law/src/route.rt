use crate::items::Items;

/// A route: components at which something must be done, in this order.
#[derive(Drop)]
pub struct Route {
    pub stops: Items<u16>,
}
