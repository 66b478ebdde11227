use component_register::Register;
use fact_store::FactStore;
use ldar_days::Day;
use std::alloc::Global;
use unit_summaries::Summaries;

/// What a view of a process unit on a day is made from: the summaries of the unit, once they are up to date. The store only names the
/// facts that the summaries say; it is not read.
#[derive(Clone, Copy)]
pub struct Source<'a> {
    pub alloc: Global,
    pub store: &'a FactStore,
    pub register: &'a Register,
    pub summaries: &'a Summaries,
    pub day: Day,
}
