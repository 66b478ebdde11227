/// The number of valves that count, and how many of them are difficult to monitor.
#[derive(Clone, Copy)]
pub struct Share {
    pub valves: u64,
    pub difficult: u64,
}

/// No valves.
pub const NOTHING: Share = Share {
    valves: 0,
    difficult: 0,
};
