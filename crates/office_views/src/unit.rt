ghost use Rattle.list_words.specs.Order.{Ascends};
ghost use Rattle.fact_kinds.specs.Facts.{is_earlier};
ghost use Rattle.monitor_calendar.specs.InOrder.{Ascends-prop};

use ldar_law::{ElectionEntry, Stop};
use unit_summaries::KnownOn;

/// What is known of a process unit on a day, from its summaries.
#[derive(Drop)]
pub struct Unit<'s> {
    /// Its shutdowns that begin by the day.
    pub stops: &'s [Stop],
    /// Its elections of a program of skip periods, in key order.
    pub elections: &'s [ElectionEntry],
    /// Its components that have begun, by number.
    pub components: Vec<KnownOn<'s>>,
    pub ghost elections_ordered: { Ascends (λ a b. is_earlier a.key b.key) elections.now } by { Ascends-prop (λ a b. is_earlier a.key b.key) elections.now },
}
