//! The duties and tags of one pump.

ghost use Rattle.std.specs.Prelude.{◌≡◌, ◌++◌, IfOk, OnOk};
ghost use Rattle.pump_seals.specs.Pumps.{IsReady};
ghost use Rattle.pump_seals.specs.Seals as law;

use crate::duties::{put_after_drips, put_weekly};
use crate::leaks_of_sort::LeaksOfSort;
use crate::marks::{ends_of, failures_of};
use crate::numbers::{SORT_DRIP, SORT_READING, SORT_SENSOR};
use crate::on_duty::on_duty;
use crate::row::Mark;
use crate::seals::{SealDuty, SealTag};
use crate::sign::Sign;
use ldar_days::Day;
use ldar_law::{Equipment, Event};
use std::alloc::{AllocError, Global};

/// A pump, its events, and its marks from the rows of a file.
#[derive(Clone, Copy)]
pub struct Pump<'a> {
    pub item: &'a Equipment,
    pub events: &'a [Event],
    pub marks: &'a [Mark],
    /// The marks that seal the pump or unseal it.
    pub switches: &'a [Mark],
    /// The day of the lists.
    pub day: Day,
}

impl Pump<'_> {
    /// Adds the tags of a kind of leak whose leaks and mends are events. The only error is out of memory.
    fn put_event_tags(
        &self,
        alloc: Global,
        tags: &mut Vec<SealTag>,
        sort: u8,
        by_attempt: bool,
        leak: Sign,
        mend: Sign,
    ) -> Result<(), AllocError>
        requires ready { IsReady self.now }
        ensures put { OnOk result (tags.new.items ≡ tags.old.items ++ law.event_tags self.now.item.now self.now.events.now self.now.marks.now self.now.day sort by_attempt leak mend) }
    {
        let signs = leak.moments_of(alloc, self.events)?;
        let leaks = on_duty(alloc, self.item, self.switches, &signs)?;
        let attempts = Sign::Attempt.moments_of(alloc, self.events)?;
        let mends = mend.moments_of(alloc, self.events)?;
        let sorted = LeaksOfSort {
            by_attempt,
            leaks: leaks.as_slice(),
            attempts: attempts.as_slice(),
            mends: mends.as_slice(),
        };
        sorted.put_tags(tags, sort, self.day)
    }

    /// Adds the tags of the barrier sensor. The only error is out of memory.
    fn put_sensor_tags(&self, alloc: Global, tags: &mut Vec<SealTag>) -> Result<(), AllocError>
        requires ready { IsReady self.now }
        ensures put { OnOk result (tags.new.items ≡ tags.old.items ++ law.sensor_tags self.now.item.now self.now.events.now self.now.marks.now self.now.day) }
    {
        let failures = failures_of(alloc, self.marks)?;
        let leaks = on_duty(alloc, self.item, self.switches, &failures)?;
        let attempts = Sign::Attempt.moments_of(alloc, self.events)?;
        let mends = ends_of(alloc, self.marks)?;
        let sorted = LeaksOfSort {
            by_attempt: false,
            leaks: leaks.as_slice(),
            attempts: attempts.as_slice(),
            mends: mends.as_slice(),
        };
        sorted.put_tags(tags, SORT_SENSOR, self.day)
    }

    /// All tags, by kind and detection. The only error is out of memory.
    #[tactic(auto, unfolding(crate::specs::Seals::seal_tags))]
    pub fn tags(&self, alloc: Global) -> Result<Vec<SealTag>, AllocError>
        requires ready { IsReady self.now }
        ensures value { IfOk result (λ tags. tags.items ≡ law.seal_tags self.now.item.now self.now.events.now self.now.marks.now self.now.day) }
    {
        let mut tags = Vec::new(alloc);
        self.put_event_tags(
            alloc,
            &mut tags,
            SORT_READING,
            true,
            Sign::HighReading,
            Sign::LowReading,
        )?;
        self.put_event_tags(
            alloc,
            &mut tags,
            SORT_DRIP,
            false,
            Sign::DripLeak,
            Sign::DryLook,
        )?;
        self.put_sensor_tags(alloc, &mut tags)?;
        Ok(tags)
    }

    /// Adds the weekly visual inspections. The only error is out of memory.
    fn put_week_duties(&self, alloc: Global, duties: &mut Vec<SealDuty>) -> Result<(), AllocError>
        requires ready { IsReady self.now }
        ensures put { OnOk result (duties.new.items ≡ duties.old.items ++ law.week_duties self.now.item.now self.now.events.now self.now.marks.now self.now.day) }
    {
        let looks = Sign::AnyLook.moments_of(alloc, self.events)?;
        put_weekly(duties, self.item, self.switches, &looks, self.day)
    }

    /// Adds the duties after drips that are no leak. The only error is out of memory.
    fn put_drip_duties(&self, alloc: Global, duties: &mut Vec<SealDuty>) -> Result<(), AllocError>
        requires ready { IsReady self.now }
        ensures put { OnOk result (duties.new.items ≡ duties.old.items ++ law.drip_duties self.now.item.now self.now.events.now self.now.marks.now self.now.day) }
    {
        let signs = Sign::SmallDrips.moments_of(alloc, self.events)?;
        let drips = on_duty(alloc, self.item, self.switches, &signs)?;
        let answers = Sign::Answer.moments_of(alloc, self.events)?;
        put_after_drips(duties, &answers, self.day, &drips)
    }

    /// All duties, by cause, due day and moment. The only error is out of memory.
    #[tactic(auto, unfolding(crate::specs::Seals::seal_duties))]
    pub fn duties(&self, alloc: Global) -> Result<Vec<SealDuty>, AllocError>
        requires ready { IsReady self.now }
        ensures value { IfOk result (λ duties. duties.items ≡ law.seal_duties self.now.item.now self.now.events.now self.now.marks.now self.now.day) }
    {
        let mut duties = Vec::new(alloc);
        self.put_week_duties(alloc, &mut duties)?;
        self.put_drip_duties(alloc, &mut duties)?;
        Ok(duties)
    }
}
