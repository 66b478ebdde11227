//! The causes of duties, by number.

/// The first monitoring of a component (40 CFR 60.482-2a(a)(1), 60.482-7a(a)(2)).
pub const CAUSE_FIRST: u8 = 1;

/// Monthly monitoring (40 CFR 60.482-2a(a)(1), 60.482-7a(a)(1)).
pub const CAUSE_MONTHLY: u8 = 2;

/// Quarterly monitoring (40 CFR 60.482-7a(c)(1)).
pub const CAUSE_QUARTERLY: u8 = 3;

/// Yearly monitoring (40 CFR 60.482-2a(e), 60.482-3a(i), 60.482-7a(f), (h)).
pub const CAUSE_YEARLY: u8 = 4;

/// Monitoring by the written plan (40 CFR 60.482-2a(g)(2), 60.482-7a(g)(2)).
pub const CAUSE_PLAN: u8 = 5;

/// The weekly visual inspection of a pump (40 CFR 60.482-2a(a)(2)).
pub const CAUSE_WEEKLY: u8 = 6;

/// The reading or designation after drips (40 CFR 60.482-2a(b)(2)).
pub const CAUSE_DRIP: u8 = 7;

/// The reading after a pressure release (40 CFR 60.482-4a(b)(2)).
pub const CAUSE_RELEASE: u8 = 8;

/// The reading after evidence of a potential leak (40 CFR 60.482-8a(a)).
pub const CAUSE_EVIDENCE: u8 = 9;
