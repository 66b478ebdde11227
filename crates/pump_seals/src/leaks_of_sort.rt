//! The tags of one kind of leak, by one walk from each leak to the next.
//!
//! Leaks that are not settled in between are a run. A tag opens at the first leak of a run, and at each other leak of the run
//! at the same moment. All of them close when the last leak of the run is settled.

ghost use Rattle.std.specs.Prelude.{◌≡◌, ◌<◌, ◌≤◌, ◌+◌, ◌++◌, false, true, not, OnOk, find, length, option_map, slice_get, Some};
ghost use Rattle.std.specs.Option.{option_to_list};
ghost use Rattle.pump_seals.specs.Moments.{MomentsRise, is_before};
ghost use Rattle.pump_seals.specs.Seals as law;
ghost use Rattle.pump_seals.specs.Walked as spec;

use crate::moment::Moment;
use crate::seals::SealTag;
use ldar_days::Day;
use ldar_law::LISTED_DAYS;
use std::alloc::AllocError;

/// The leaks of one kind, the attempts, and the mends: the moments that may settle such leaks. Each list is in order.
#[derive(Clone, Copy)]
pub struct LeaksOfSort<'a> {
    /// Whether a leak is settled only after an attempt.
    pub by_attempt: bool,
    pub leaks: &'a [Moment],
    pub attempts: &'a [Moment],
    pub mends: &'a [Moment],
}

/// A run of leaks that are not settled in between.
#[derive(Clone, Copy)]
pub struct Run {
    pub first: Moment,
    /// The moment at which its tags close.
    pub closed: Option<Moment>,
}

/// Adds an item, if there is one. The only error is out of memory.
pub fn put<T: Drop>(items: &mut Vec<T>, given: Option<T>) -> Result<(), AllocError>
    ensures pushed { OnOk result (items.new.items ≡ items.old.items ++ option_to_list given) }
{
    if let Some(item) = given {
        items.push(item)?;
    }
    Ok(())
}

/// The number of moments that are not after `at`; by binary search.
fn count_to(moments: &[Moment], at: &Moment) -> usize
    requires ordered { MomentsRise is_before moments.now }
    ensures within { result ≤ length moments.now }
    ensures value { find (is_before at.now) moments.now ≡ slice_get moments.now result }
{
    moments.partition_point(|moment| !at.is_before(moment))
}

/// The first moment after another one. The moments are in order.
pub fn first_after(moments: &[Moment], at: &Moment) -> Option<Moment>
    requires ordered { MomentsRise is_before moments.now }
    ensures value { result ≡ find (is_before at.now) moments.now }
{
    moments.get(count_to(moments, at)).copied()
}

/// The day of a moment, if there is one.
pub fn day_of(moment: &Option<Moment>) -> Option<Day>
    ensures value { result ≡ option_map (λ m. m.day) moment.now }
{
    match *moment {
        Some(moment) => Some(moment.day),
        None => None,
    }
}

/// Whether a tag with this closing, if any, is on the list of a day (our own rule).
fn is_shown(closed: &Option<Moment>, day: Day) -> bool
    ensures value { result ≡ law.is_shown day closed.now }
{
    match *closed {
        Some(moment) => day.number() <= moment.day.number() + LISTED_DAYS,
        None => true,
    }
}

impl LeaksOfSort<'_> {
    /// The first mend that settles a leak, if no later leak prevents it.
    #[tactic(auto, unfolding(crate::specs::Runs::first_mend))]
    fn first_mend(&self, leak: &Moment) -> Option<Moment>
        requires ordered { spec.AreInOrder self.now }
        ensures value { result ≡ spec.first_mend self.now leak.now }
    {
        if !self.by_attempt {
            return first_after(self.mends, leak);
        }
        let attempt = first_after(self.attempts, leak)?;
        first_after(self.mends, &attempt)
    }

    /// Whether a leak is settled before the next one.
    fn is_settled_before(&self, leak: &Moment, next: &Moment) -> bool
        requires ordered { spec.AreInOrder self.now }
        ensures value { result ≡ spec.is_settled_before self.now leak.now next.now }
    {
        match self.first_mend(leak) {
            Some(mend) => mend.is_before(next),
            None => false,
        }
    }

    /// Whether there is a leak after the one at a place, and the one at the place is not settled before it.
    #[tactic(auto, unfolding(crate::specs::Walked::runs_on))]
    fn runs_on(&self, place: usize) -> bool
        requires ordered { spec.AreInOrder self.now }
        requires in_range { place < length self.now.leaks.now }
        ensures value { result ≡ spec.runs_on self.now place }
        ensures more { result ≡ true → place + 1 < length self.now.leaks.now }
    {
        if place + 1 >= self.leaks.len() {
            return false;
        }
        !self.is_settled_before(&self.leaks[place], &self.leaks[place + 1])
    }

    /// The moment at which a tag that is open at the leak at a place closes: when the last leak of its run is settled.
    fn closing_from(&self, place: usize) -> Option<Moment>
        requires ordered { spec.AreInOrder self.now }
        requires in_range { place < length self.now.leaks.now }
        ensures value { result ≡ spec.closing_at self.now place }
    {
        let mut last = place;
        while self.runs_on(last) {
            last += 1;
        }
        self.first_mend(&self.leaks[last])
    }

    /// The run of the first leak.
    fn first_run(&self) -> Run
        requires ordered { spec.AreInOrder self.now }
        requires some { 0 < length self.now.leaks.now }
        ensures value { spec.IsRunAt self.now result 0 }
    {
        Run {
            first: self.leaks[0],
            closed: self.closing_from(0),
        }
    }

    /// The run of the leak after a place, from the run of the leak at the place.
    fn run_after(&self, run: &Run, place: usize) -> Run
        requires ordered { spec.AreInOrder self.now }
        requires in_range { place < length self.now.leaks.now }
        requires run { spec.IsRunAt self.now run.now place }
        ensures value { spec.IsRunAt self.now result (place + 1) }
    {
        if place + 1 >= self.leaks.len() {
            return *run;
        }
        if self.runs_on(place) {
            return *run;
        }
        Run {
            first: self.leaks[place + 1],
            closed: self.closing_from(place + 1),
        }
    }

    /// The tag that opens at a leak of a run, if there is one and it is on the list of a day.
    fn tag_of(&self, sort: u8, run: &Run, leak: &Moment, day: Day) -> Option<SealTag>
        requires ordered { spec.AreInOrder self.now }
        requires run { spec.IsIn self.now run.now leak.now }
        ensures value { result ≡ spec.tag_of self.now sort day leak.now }
    {
        if run.first.is_before(leak) || !is_shown(&run.closed, day) {
            return None;
        }
        Some(SealTag {
            sort,
            detected: leak.day,
            attempted: day_of(&first_after(self.attempts, leak)),
            closed: day_of(&run.closed),
        })
    }

    /// Adds the tags of this kind of leak that are on the list of a day. The only error is out of memory.
    #[tactic(auto, unfolding(crate::specs::Seals::tags_of_sort))]
    pub fn put_tags(&self, tags: &mut Vec<SealTag>, sort: u8, day: Day) -> Result<(), AllocError>
        requires ordered { spec.AreInOrder self.now }
        ensures put { OnOk result (tags.new.items ≡ tags.old.items ++ spec.tags_of self.now sort day) }
    {
        if self.leaks.is_empty() {
            return Ok(());
        }
        let mut run = self.first_run();
        for place in 0..self.leaks.len() {
            put(tags, self.tag_of(sort, &run, &self.leaks[place], day))?;
            run = self.run_after(&run, place);
        }
        Ok(())
    }
}
