//! A summary of the unsettled leaks: what decides when they are settled. Its size does not depend on their number.

ghost use Rattle.std.specs.Prelude.{◌≡◌};
ghost use Rattle.leak_tags.specs.OpenLeaks as spec;

use crate::below_months::BelowMonths;
use crate::leaks::Leaks;
use fact_kinds::Kind;
use ldar_days::Day;
use ldar_law::{Event, Happening, is_valve_or_pump};

/// The unsettled leaks by kind, and what else decides when a leak is settled.
#[derive(Clone, Copy)]
pub struct OpenLeaks {
    /// Readings that are leaks.
    pub readings: Leaks,
    /// Drips.
    pub drips: Leaks,
    /// Leaks of sensors.
    pub sensors: Leaks,
    /// Whether there was an attempt since the last leak.
    pub attempted: bool,
    pub below: BelowMonths,
}

impl OpenLeaks {
    /// No leaks, before any event.
    pub fn none() -> OpenLeaks
        ensures value { result ≡ spec.none_open }
    {
        OpenLeaks {
            readings: Leaks::none(),
            drips: Leaks::none(),
            sensors: Leaks::none(),
            attempted: false,
            below: BelowMonths::none(),
        }
    }

    /// Whether some leak is not settled.
    pub fn is_open(&self) -> bool
        ensures value { result ≡ spec.is_open self.now }
    {
        self.readings.has_any() || self.drips.has_any() || self.sensors.has_any()
    }

    /// Starts over at a leak: attempts and readings before it settle nothing.
    fn begin_anew(&mut self)
        ensures value { self.new ≡ spec.anew self.old }
    {
        self.attempted = false;
        self.below = BelowMonths::none();
    }

    /// Adds a reading below the leak definition. After an attempt it settles readings and drips (40 CFR 60.481a
    /// "repaired"). As the second of two in consecutive months it settles each delayed leak of a valve or a pump (40
    /// CFR 60.482-9a(f)).
    fn take_below(&mut self, kind: Kind, day: Day)
        ensures value { self.new ≡ spec.with_below kind self.old day }
    {
        let month = day.month().number();
        let second = self.below.is_second(month);
        let delayed = is_valve_or_pump(kind) && second;
        self.readings.settle(self.attempted, delayed);
        self.drips.settle(self.attempted, delayed);
        self.sensors.settle(false, delayed);
        self.below = BelowMonths {
            last: month,
            before: second,
        };
    }

    /// Adds a reading.
    fn take_reading(&mut self, kind: Kind, below: bool, leak: bool, day: Day)
        ensures value { self.new ≡ spec.with_reading kind self.old below leak day }
    {
        if below {
            self.take_below(kind, day);
        }
        if leak {
            self.readings.open(day);
            self.begin_anew();
        }
    }

    /// Adds a visual inspection. A dry one after an attempt settles drips.
    fn take_look(&mut self, dry: bool, leak: bool, day: Day)
        ensures value { self.new ≡ spec.with_look self.old dry leak day }
    {
        self.drips.settle(dry && self.attempted, false);
        if leak {
            self.drips.open(day);
            self.begin_anew();
        }
    }

    /// Adds a sensor's indication.
    fn take_indication(&mut self, leak: bool, day: Day)
        ensures value { self.new ≡ spec.with_indication self.old leak day }
    {
        if leak {
            self.sensors.open(day);
            self.begin_anew();
        }
    }

    /// Adds an attempt. A complete one settles leaks of sensors.
    fn take_attempt(&mut self, complete: bool)
        ensures value { self.new ≡ spec.with_attempt self.old complete }
    {
        self.sensors.settle(complete, false);
        self.attempted = true;
    }

    /// Adds a delay of ground (a), (c), (d) or (e), or another one.
    fn take_delay(&mut self, counts: bool, day: Day)
        ensures value { self.new ≡ spec.with_delay self.old counts day }
    {
        if counts {
            self.readings.delay(day);
            self.drips.delay(day);
            self.sensors.delay(day);
        }
    }

    /// The component goes out of service, which settles all leaks (our own rule).
    fn retire(&mut self)
        ensures value { self.new ≡ spec.retired self.old }
    {
        self.readings = Leaks::none();
        self.drips = Leaks::none();
        self.sensors = Leaks::none();
    }

    /// Adds one more event.
    #[inline(always)]
    pub fn take(&mut self, kind: Kind, event: &Event)
        ensures value { self.new ≡ spec.with_event kind self.old event.now }
    {
        let day = event.key.day;
        match event.what {
            Happening::Read { below, leak, .. } => self.take_reading(kind, below, leak, day),
            Happening::Look { drips, leak, .. } => self.take_look(!drips, leak, day),
            Happening::Attempt { complete } => self.take_attempt(complete),
            Happening::Delay { .. } => self.take_delay(event.what.delays_with_reading(), day),
            Happening::Release => {}
            Happening::Sensor { leak, .. } => self.take_indication(leak, day),
            Happening::Evidence { .. } => {}
            Happening::Retire => self.retire(),
        }
    }
}
