//! The rules of the leak detection and repair program as definitions: what the facts of a history mean on a view day,
//! and the types for it.
//!
//! Tests: `examples` here, `rule_tests::classes`, `register_tests::tallies`.
#![tactic(auto)]

mod asked;
mod causes;
mod class_in_force;
mod delay;
mod duty;
mod election;
mod equipment;
mod event;
pub mod examples;
mod fitness;
mod grounds;
mod happening;
mod history;
mod items;
mod key_order;
pub mod laws;
mod leak_definition;
mod months;
mod numbers;
mod of_unit;
mod paragraphs;
mod quarter;
mod regime;
mod reply;
mod report;
mod request;
mod route;
mod service;
mod sheet;
mod sorts;
mod span;
mod suiting;
mod tag;
mod tally;
mod text;
mod unit_entry;
mod verdict;

pub use asked::{component_asked, is_registered, unit_asked};
pub use causes::{
    CAUSE_DRIP, CAUSE_EVIDENCE, CAUSE_FIRST, CAUSE_MONTHLY, CAUSE_PLAN, CAUSE_QUARTERLY,
    CAUSE_RELEASE, CAUSE_WEEKLY, CAUSE_YEARLY,
};
pub use class_in_force::{ClassInForce, entered_from, entered_to, last_entered};
pub use delay::{DelayEntry, DelayLine, Stop, Until, attempt_by, repair_by};
pub use duty::{Duty, is_listed};
pub use election::ElectionEntry;
pub use equipment::Equipment;
pub use event::{Event, Happening};
pub use fitness::Fitness;
pub use grounds::{
    GROUND_DUAL_SEAL, GROUND_ISOLATED, GROUND_PURGING, GROUND_SHUTDOWN, GROUND_STOCK,
    GROUND_WITHDRAWN,
};
pub use happening::has_leak;
pub use history::History;
pub use items::Items;
pub use key_order::are_in_key_order;
pub use leak_definition::limit;
pub use months::is_clean_twice_from;
pub use numbers::{
    ATTEMPT_DAYS, EVENT_DAYS, FIRST_DAYS, GAS_MARGIN, LAST_FACT_DAY, LISTED_DAYS, MOST_COMPONENTS,
    NOTICE_DAYS, REPAIR_DAYS, VERIFICATION_DAYS,
};
pub use of_unit::OfUnit;
pub use paragraphs::paragraph;
pub use quarter::{is_in_quarter, judging_day, month_in_quarter, quarter_start};
pub use regime::Regime;
pub use reply::Reply;
pub use report::{Amended, Cells, Filed, MonthCells, Report};
pub use request::{Request, What};
pub use route::Route;
pub use sheet::Sheet;
pub use sorts::{
    is_compressor, is_difficult_designated, is_nde_designated, is_none_designated, is_pump,
    is_under_300, is_unsafe_designated, is_vacuum, is_valve, is_valve_or_pump,
};
pub use span::Span;
pub use suiting::suits;
pub use tag::Tag;
pub use tally::{Mark, Tally};
pub use text::Text;
pub use unit_entry::UnitEntry;
pub use verdict::Verdict;
