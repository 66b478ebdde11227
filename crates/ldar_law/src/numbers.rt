//! The numbers of the rule that are used in several places, each with a name.

use ldar_days::LAST_STARTUP;

/// Days from the detection of a leak to the last day for a first attempt at its repair (40 CFR 60.482-2a(c)(2),
/// 60.482-7a(d)(2)).
pub const ATTEMPT_DAYS: u32 = 5;

/// Days from the detection of a leak to the last day for its repair (40 CFR 60.482-2a(c)(1), 60.482-7a(d)(1)). After a
/// delay that was entered by then, two clean months can settle the leak (40 CFR 60.482-9a(f)).
pub const REPAIR_DAYS: u32 = 15;

/// Days from the last day of a shutdown to the last day for the verification: the startup is on the next day, and
/// fifteen days follow (our own rule).
pub const VERIFICATION_DAYS: u32 = 16;

/// Days from the beginning of a new component to the last day for its first monitoring (40 CFR 60.482-2a(a)(1),
/// 60.482-7a(a)(2)).
pub const FIRST_DAYS: u32 = 30;

/// Days from drips, a pressure release or evidence of a potential leak to the last day for the required response (40
/// CFR 60.482-2a(b)(2), 60.482-4a(b)(2), 60.482-8a(a)).
pub const EVENT_DAYS: u32 = 5;

/// Days for which a list keeps unmet duties after their due day, and closed tags after their closing (our own rule).
pub const LISTED_DAYS: u32 = 366;

/// Minimum days of notice for the election of skip periods (40 CFR 60.487a(d)).
pub const NOTICE_DAYS: u32 = 90;

/// Maximum by which a calibration gas may exceed the leak definition, in parts per million by volume (40 CFR
/// 60.485a(b)(1)).
pub const GAS_MARGIN: u32 = 2_000;

/// The last day of a fact, so that each process unit has a quarter (our own rule).
pub const LAST_FACT_DAY: u32 = LAST_STARTUP;

/// The largest number of a component; the smallest is 1 (our own rule).
pub const MOST_COMPONENTS: u32 = 60_000;
