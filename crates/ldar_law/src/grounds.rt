//! The grounds of a delay of repair, by number (40 CFR 60.482-9a).

/// No ground: the delay is withdrawn.
pub const GROUND_WITHDRAWN: u8 = 0;

/// (a): the repair is infeasible without a process unit shutdown.
pub const GROUND_SHUTDOWN: u8 = 1;

/// (b): the component is isolated from the process and not in VOC service.
pub const GROUND_ISOLATED: u8 = 2;

/// (c): purging would emit more than the leak.
pub const GROUND_PURGING: u8 = 3;

/// (d): a dual mechanical seal is needed.
pub const GROUND_DUAL_SEAL: u8 = 4;

/// (e): the stock of valve assemblies is depleted.
pub const GROUND_STOCK: u8 = 5;
