use crate::class::{Class, Kind};
use crate::name::Name;
use ldar_days::Day;

/// Why a reading was taken.
#[derive(Clone, Copy, Debug, PartialEq, Eq)]
pub enum Purpose {
    /// A monitoring that the monitoring period requires.
    Routine,
    /// A reading after a repair or between two monitorings.
    FollowUp,
}

/// What a visual inspection of a pump found (40 CFR 60.482-2a(a)(2)).
#[derive(Clone, Copy, Debug, PartialEq, Eq)]
pub enum VisualState {
    Dry,
    Drips,
    /// Drips that the owner designates as a leak (40 CFR 60.482-2a(b)(2)(ii)).
    Designated,
}

/// The kind of an indication.
#[derive(Clone, Copy, Debug, PartialEq, Eq)]
pub enum Sort {
    /// A compressor's barrier fluid sensor (40 CFR 60.482-3a(e)).
    Sensor,
    /// A potential leak found by sight, sound, smell or another method (40 CFR 60.482-8a(a)).
    Evidence,
}

/// What a fact states. Each field is in its range: components from 1 to 60,000, units from 1 to 64,
/// concentrations in parts per million by volume.
#[derive(Clone, Copy, PartialEq, Eq)]
pub enum FactBody {
    /// A process unit, whose initial startup is on the fact's day (40 CFR 60.481a).
    Unit {
        unit: u8,
        /// The share of difficult-to-monitor valves is not limited.
        older: bool,
        name: Name,
    },
    /// A component; its startup period has ended by the fact's day.
    Component {
        component: u16,
        unit: u8,
        kind: Kind,
        /// It handles polymerizing monomers (40 CFR 60.482-2a(b)(1)(i)).
        monomer: bool,
        /// It replaces a leaking component.
        replaces: bool,
        class: Class,
    },
    /// The class of a component from the fact's day on.
    Class {
        component: u16,
        class: Class,
    },
    /// A component is out of service from the fact's day on.
    Retire {
        component: u16,
    },
    /// The skip period program from the fact's day on: 0 for none, 1 or 3 (40 CFR 60.483-2a).
    Election {
        unit: u8,
        mode: u8,
        notified: Day,
    },
    /// A process unit shutdown of 1 to 366 days, the first of them the fact's day.
    Shutdown {
        unit: u8,
        days: u16,
    },
    /// A calibration of an instrument with a gas (EPA Method 21, section 10.1).
    Calibration {
        instrument: u16,
        gas: u32,
    },
    /// A calibration precision test: three readings of a known value (EPA Method 21, section 8.1.2).
    Precision {
        instrument: u16,
        value: u32,
        readings: (u32, u32, u32),
    },
    /// A calibration drift assessment at the end of a day (40 CFR 60.485a(b)(2)).
    Drift {
        instrument: u16,
        value: u32,
        readings: (u32, u32, u32),
    },
    /// A reading at a component (40 CFR 60.485a(b)). Instrument 0 and operator 0 mean none.
    Reading {
        component: u16,
        instrument: u16,
        operator: u16,
        purpose: Purpose,
        ppm: u32,
        background: u32,
    },
    /// A visual inspection of a pump.
    Visual {
        component: u16,
        state: VisualState,
    },
    /// An attempt at a repair. It is complete if it repairs a leak that a sensor indicated.
    Attempt {
        component: u16,
        complete: bool,
    },
    /// A delay of repair (40 CFR 60.482-9a). Grounds 1 to 5 are paragraphs (a) to (e), and 0 withdraws the delay.
    /// Signer 0 means none.
    Delay {
        component: u16,
        ground: u8,
        signer: u16,
        expected: Option<Day>,
    },
    /// A pressure release of a relief device (40 CFR 60.482-4a(b)).
    Release {
        component: u16,
    },
    /// An indication of a leak that is present or gone.
    Indication {
        component: u16,
        sort: Sort,
        present: bool,
    },
}
