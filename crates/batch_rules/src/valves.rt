//! The number of valves of a process unit in service on a day, and how many of them are difficult to monitor
//! (40 CFR 60.482-7a(h)(2)(ii)).

ghost use Rattle.std.specs.Prelude.{◌≡◌, ◌+◌, ◌<◌, ◌≤◌, [], length, ◌^◌, ◌&&◌, nat_eq, sum_by};
ghost use Rattle.fact_kinds.specs.declared.limits.TheConstants.{BATCH_FACTS, MOST_FACTS};
ghost use Rattle.fact_store.specs.Kept.{facts_in};
ghost use Rattle.ldar_law.specs.Equipment.{classes_of};
ghost use Rattle.ldar_law.specs.Force as law;
ghost use Rattle.ldar_law.specs.Force.{is_in_service};
ghost use Rattle.ldar_law.specs.Judged.{register_with};
ghost use Rattle.ldar_law.specs.Kinds as kinds;
ghost use Rattle.ldar_law.specs.ShareLaws.{adds, counts_as_difficult, counts_as_valve};
ghost use Rattle.batch_rules.specs.Known.{register_at, register_by};
ghost use Rattle.batch_rules.specs.Seen.{seen_in, HasTouched};
ghost use Rattle.batch_rules.specs.Shares.{added, changed as changed_by, share_in};

use crate::known_facts::{Known, key_at};
use crate::seen::{Seen, seen_of};
use crate::share::{NOTHING, Share};
use crate::touched::Touched;
use component_register::Register;
use fact_kinds::{Class, FactBody, component_of};
use ldar_days::Day;
use ldar_law::{Equipment, is_difficult_designated, is_registered, is_valve};

/// Whether a component is a valve of the process unit, in service on the day.
fn is_valve_of(item: &Equipment, unit: u8, day: Day) -> bool
    ensures value { result ≡ (nat_eq item.now.unit unit && kinds.is_valve item.now.kind && is_in_service item.now day) }
{
    item.unit == unit && is_valve(item.kind) && item.is_in_service(day)
}

/// The class of a component in force on the day, by the register.
fn class_on(register: &Register, item: &Equipment, component: u16, day: Day) -> Class
    ensures value { result ≡ law.class_on item.now (classes_of component (facts_in register.now)) day }
{
    match register.class_entry(component, day) {
        Some((_, class)) => class,
        None => item.class,
    }
}

/// The share of a process unit on a day that a component adds, by the register.
fn share_of(register: &Register, component: u16, unit: u8, day: Day) -> Share
    ensures value { result ≡ added unit day (register_with (facts_in register.now) []) component }
    ensures one { (result.valves ≤ 1) × (result.difficult ≤ 1) }
{
    let Some(item) = register.component(component) else {
        return NOTHING;
    };
    if !is_valve_of(&item, unit, day) {
        return NOTHING;
    }
    if is_difficult_designated(class_on(register, &item, component, day).designation) {
        return Share {
            valves: 1,
            difficult: 1,
        };
    }
    Share {
        valves: 1,
        difficult: 0,
    }
}

/// The share of some components, by the register.
fn share_of_all(register: &Register, components: &[u16], unit: u8, day: Day) -> Share
    requires few { length components.now ≤ MOST_FACTS }
    ensures valves { result.valves ≡ sum_by (adds (counts_as_valve unit day) (register_with (facts_in register.now) [])) components.now }
    ensures difficult { result.difficult ≡ sum_by (adds (counts_as_difficult unit day) (register_with (facts_in register.now) [])) components.now }
    ensures few { (result.valves ≤ MOST_FACTS) × (result.difficult ≤ MOST_FACTS) }
{
    let mut share = NOTHING;
    for component in components {
        let one = share_of(register, *component, unit, day);
        share.valves += one.valves;
        share.difficult += one.difficult;
    }
    share
}

/// The share from the register only.
fn share_registered(register: &Register, unit: u8, day: Day) -> Share
    ensures value { result ≡ share_in unit day (register_with (facts_in register.now) []) }
    ensures few { (result.valves ≤ MOST_FACTS) × (result.difficult ≤ MOST_FACTS) }
{
    share_of_all(register, register.members(unit), unit, day)
}

/// The component that a fact changes in the register.
fn changed(body: &FactBody) -> Option<u16>
    ensures value { result ≡ changed_by body.now }
{
    if is_registered(body) {
        component_of(body)
    } else {
        None
    }
}

/// The share after a component's part of it changed.
fn corrected(share: Share, before: Share, now: Share) -> Share
    requires valves { before.valves ≤ share.valves + now.valves }
    requires difficult { before.difficult ≤ share.difficult + now.difficult }
    requires few { (share.valves ≤ 9_000_000) × (share.difficult ≤ 9_000_000) }
    requires one { (now.valves ≤ 1) × (now.difficult ≤ 1) }
    ensures valves { result.valves + before.valves ≡ share.valves + now.valves }
    ensures difficult { result.difficult + before.difficult ≡ share.difficult + now.difficult }
{
    Share {
        valves: share.valves + now.valves - before.valves,
        difficult: share.difficult + now.difficult - before.difficult,
    }
}

/// What is known of a component on a day after the first facts of the batch: from the table if they changed it, or from the
/// register.
fn seen_before(known: &Known, touched: &Touched, index: usize, component: u16, day: Day) -> Seen
    requires touched { HasTouched known.now day index touched.now }
    requires few { index ≤ BATCH_FACTS }
    ensures value { result ≡ seen_in (register_by known.now index) component day }
{
    match touched.find(component) {
        Some(seen) => seen,
        None => seen_of(&known.up_to(0, None), component, day),
    }
}

/// The share with one more fact, at this place of the batch. The table is renewed.
fn share_after(
    known: &Known,
    touched: &mut Touched,
    share: Share,
    index: usize,
    unit: u8,
    day: Day,
) -> Share
    requires within { index < length known.now.front.now }
    requires few { length known.now.front.now ≤ BATCH_FACTS }
    requires so_far { share ≡ share_in unit day (register_by known.now index) }
    requires touched { HasTouched known.now day index touched.old }
    requires small { (share.valves ≤ MOST_FACTS + index) × (share.difficult ≤ MOST_FACTS + index) }
    ensures value { result ≡ share_in unit day (register_by known.now (index + 1)) }
    ensures touched { HasTouched known.now day (index + 1) touched.new }
    ensures small { (result.valves ≤ MOST_FACTS + index + 1) × (result.difficult ≤ MOST_FACTS + index + 1) }
{
    let fact = &known.front[index];
    let Some(component) = changed(&fact.body) else {
        return share;
    };
    let before = seen_before(known, touched, index, component, day);
    let key = key_at(known.handheld, known.number, index, fact);
    let now = before.after(component, day, key, fact);
    touched.note(index, component, now);
    corrected(share, before.share(unit, day), now.share(unit, day))
}

/// The share from the register and the facts of the batch.
pub fn share_known(known: &Known, unit: u8, day: Day) -> Share
    requires few { length known.now.front.now ≤ BATCH_FACTS }
    ensures value { result ≡ share_in unit day (register_at known.now) }
    ensures small { (result.valves ≤ 9_000_000) × (result.difficult ≤ 9_000_000) }
{
    let mut touched = Touched::new();
    let mut share = share_registered(known.register, unit, day);
    for index in 0..known.front.len() {
        share = share_after(known, &mut touched, share, index, unit, day);
    }
    share
}
