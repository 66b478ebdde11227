use std::alloc::{AllocError, Global};

/// The order in which facts arrive. Their places are those in key order.
#[derive(Clone, Copy)]
pub enum Order {
    Key,
    Reverse,
    Shuffled,
}

impl Order {
    /// The order with this name, or `key` for any other word.
    pub fn of(word: &str) -> Order {
        match word {
            "reverse" => Order::Reverse,
            "shuffled" => Order::Shuffled,
            _ => Order::Key,
        }
    }
}

/// The places of `count` facts, in the order in which they arrive.
pub fn places(alloc: Global, order: Order, count: u32) -> Result<Vec<u32>, AllocError> {
    let mut places: Vec<u32> = (0..count).collect(alloc)?;
    match order {
        Order::Key => {}
        Order::Reverse => places.reverse(),
        Order::Shuffled => places.sort_by_key(|place| mixed(*place))?,
    }
    Ok(places)
}

/// A different number for each place, which looks random.
fn mixed(place: u32) -> u32 {
    let once = (place ^ (place >> 16)).wrapping_mul(0x7feb_352d);
    let twice = (once ^ (once >> 15)).wrapping_mul(0x846c_a68b);
    twice ^ (twice >> 16)
}
