//! The rule on difficult-to-monitor valves (40 CFR 60.482-7a(h)(2)(ii)).

ghost use Rattle.std.specs.Prelude.{◌≡◌, ◌&&◌, false, IfSome};
ghost use Rattle.ldar_law.specs.Denials as law;
ghost use Rattle.ldar_law.specs.Kinds as kinds;
ghost use Rattle.ldar_law.specs.Standing as standing;
ghost use Rattle.batch_rules.specs.Passed.{IsPassed};

use crate::case::Case;
use crate::valves::share_known;
use fact_kinds::{Class, FactBody, Kind};
use ldar_law::{is_difficult_designated, is_valve};

/// Whether a component of this type and class is a difficult-to-monitor valve.
fn makes_difficult(kind: Kind, class: Class) -> bool
    ensures value { result ≡ (kinds.is_valve kind && standing.is_difficult_designated class.designation) }
{
    is_valve(kind) && is_difficult_designated(class.designation)
}

/// The unit of a valve that the fact makes difficult to monitor.
fn unit_with_one_more(case: &Case) -> Option<u8>
    ensures value { result ≡ law.unit_with_one_more case.now }
{
    match *case.body() {
        FactBody::Component {
            unit,
            kind,
            class,
            ..
        } if makes_difficult(kind, class) => Some(unit),
        FactBody::Class { component, class } => match case.whole().component(component) {
            Some(item) if makes_difficult(item.kind, class) => Some(item.unit),
            _ => None,
        },
        _ => None,
    }
}

/// Whether the unit was entered and its share of difficult valves is limited.
fn is_bounded(case: &Case, unit: u8) -> bool
    ensures value { result ≡ law.is_bounded case.now unit }
{
    match case.whole().unit(unit) {
        Some(entry) => !entry.older,
        None => false,
    }
}

/// Whether at least 3 percent of the unit's valves in service on the fact's day are difficult to monitor.
fn is_share_reached(case: &Case, unit: u8) -> bool
    ensures value { result ≡ law.is_share_reached case.now unit }
{
    let share = share_known(case.whole(), unit, case.day());
    share.valves * 3 <= share.difficult * 100
}

/// Rule 15 (40 CFR 60.482-7a(h)(2)(ii)): one more valve becomes difficult to monitor, and so the unit reaches
/// 3 percent of its valves.
pub fn too_many_difficult(case: &Case) -> bool
    ensures value { result ≡ law.too_many_difficult case.now }
{
    match unit_with_one_more(case) {
        Some(unit) => {
            if case.is_passed(unit) {
                return false;
            }
            is_bounded(case, unit) && is_share_reached(case, unit)
        }
        None => false,
    }
}

/// The unit for which the rule judged a fact that passed, if it had not judged an earlier fact for it.
pub fn newly_asked(case: &Case) -> Option<u8>
    requires passes { law.too_many_difficult case.now ≡ false }
    ensures passed { IfSome result (λ unit. IsPassed case.now.whole (unit, case.now.entry.0.day)) }
{
    match unit_with_one_more(case) {
        Some(unit) if !case.is_passed(unit) => Some(unit),
        _ => None,
    }
}
