/// The type of a component.
#[derive(Clone, Copy, Debug, PartialEq, Eq)]
pub enum Kind {
    Valve,
    Pump,
    Compressor,
    Relief,
}

/// The service of a component, or the reason that excludes it from the program.
#[derive(Clone, Copy, Debug, PartialEq, Eq)]
pub enum Service {
    /// In gas or vapor service.
    Gas,
    /// In light liquid service.
    Light,
    /// In heavy liquid service.
    Heavy,
    /// In vacuum service (40 CFR 60.482-1a(d)).
    Vacuum,
    /// In VOC service less than 300 hours a year (40 CFR 60.482-1a(e)).
    Under300,
}

/// The designation of a component.
#[derive(Clone, Copy, Debug, PartialEq, Eq)]
pub enum Designation {
    /// No designation.
    Plain,
    /// Designated for no detectable emissions (40 CFR 60.482-2a(e), 60.482-3a(i), 60.482-7a(f)).
    Nde,
    /// Unsafe to monitor (40 CFR 60.482-2a(g), 60.482-7a(g)).
    Unsafe,
    /// Difficult to monitor (40 CFR 60.482-7a(h)).
    Difficult,
}

/// The class of a component from a day on.
#[derive(Clone, Copy, Debug, PartialEq, Eq)]
pub struct Class {
    pub service: Service,
    pub designation: Designation,
    /// The months between monitorings in the written plan of an unsafe-to-monitor component, 1 to 60.
    /// It is 0 for every other designation.
    pub plan: u8,
    /// The month of the quarter, 1 to 3, in which the component is monitored.
    pub month: u8,
}
