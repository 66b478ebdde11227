use fact_kinds::Key;
use ldar_days::Day;

/// An event at a component and its time: a fact of the component, judged on its own day.
#[derive(Clone, Copy, Debug, PartialEq, Eq)]
pub struct Event {
    pub key: Key,
    pub what: Happening,
}

/// What a fact of a component is once it is judged. Concentrations are in parts per million by volume.
#[derive(Clone, Copy, Debug, PartialEq, Eq)]
pub enum Happening {
    /// A reading.
    Read {
        ppm: u32,
        background: u32,
        /// The reading is a routine one, taken for a monitoring period.
        routine: bool,
        /// The reading is fit, not voided, and was taken in service and not in an excluded service.
        counts: bool,
        /// The reading counts and is below the leak definition.
        below: bool,
        /// The reading is a leak (40 CFR 60.482-2a(b)(1), 60.482-7a(b), 60.482-8a(b)).
        leak: bool,
    },
    /// A visual inspection of a pump.
    Look {
        /// Liquid drips, whether designated as a leak or not.
        drips: bool,
        /// The drips are designated as a leak.
        designated: bool,
        /// The drips are a leak (40 CFR 60.482-2a(b)(2)(ii)).
        leak: bool,
    },
    /// An attempt at a repair.
    Attempt {
        complete: bool,
    },
    /// A delay of repair: ground 1 to 5 for (a) to (e) of 40 CFR 60.482-9a, or 0 if it is withdrawn.
    Delay {
        ground: u8,
        /// The person who decided on the delay; 0 for none.
        signer: u16,
        expected: Option<Day>,
    },
    /// A pressure release (40 CFR 60.482-4a(b)).
    Release,
    /// A sensor's indication (40 CFR 60.482-3a(e)).
    Sensor {
        present: bool,
        /// The indication is a leak (40 CFR 60.482-3a(f)).
        leak: bool,
    },
    /// Evidence of a potential leak (40 CFR 60.482-8a(a)).
    Evidence {
        present: bool,
    },
    /// The component is out of service from this day on.
    Retire,
}
