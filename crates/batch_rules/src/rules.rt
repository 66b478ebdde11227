//! The table of rules.

ghost use Rattle.std.specs.Prelude.{◌≡◌, ◌<◌, length};
ghost use Rattle.ldar_law.specs.Verdicts as law;
ghost use Rattle.batch_rules.specs.Table.{first_true};

use crate::case::Case;
use crate::components::{
    component_unknown, looked_in_vacuum, looked_under_300_hours, no_compressor_to_sense,
    no_evidence_counts, no_pump_to_see, no_relief_device, reading_unsigned,
};
use crate::delays::{
    delay_unsigned, purges_no_valve, repair_not_expected, seals_no_pump, stocks_no_valve,
};
use crate::difficult::too_many_difficult;
use crate::elections::{elected_within_a_quarter, notified_late};
use crate::entries::{
    class_unsuited, day_too_late, entered_by_a_handheld, entered_twice, unit_unknown,
};

/// For each of the 21 rules, in order, whether it denies the fact.
fn findings(case: &Case) -> [bool; 21]
    ensures value { first_true result ≡ law.least_rule case.now }
{
    [
        component_unknown(case),
        looked_in_vacuum(case),
        looked_under_300_hours(case),
        reading_unsigned(case),
        no_pump_to_see(case),
        no_compressor_to_sense(case),
        no_relief_device(case),
        no_evidence_counts(case),
        purges_no_valve(case),
        seals_no_pump(case),
        stocks_no_valve(case),
        delay_unsigned(case),
        repair_not_expected(case),
        notified_late(case),
        too_many_difficult(case),
        entered_by_a_handheld(case),
        unit_unknown(case),
        entered_twice(case),
        day_too_late(case),
        elected_within_a_quarter(case),
        class_unsuited(case),
    ]
}

/// The place of the first true element, from 1.
#[tactic(auto, unfolding(crate::specs::Table::first_true))]
fn first_true(findings: &[bool; 21]) -> Option<u8>
    ensures value { result ≡ first_true findings.now }
{
    for (index, denies) in findings.iter().enumerate() {
        if *denies {
            return Some(index as u8 + 1);
        }
    }
    None
}

/// The least rule that denies a fact, from 1.
pub fn least_rule(case: &Case) -> Option<u8>
    ensures value { result ≡ law.least_rule case.now }
{
    first_true(&findings(case))
}
