//! The rules on delays of repair (40 CFR 60.482-9a, 60.486a(c)). Grounds 1 to 5 are the paragraphs (a) to (e).

ghost use Rattle.std.specs.Prelude.{◌≡◌};
ghost use Rattle.ldar_law.specs.Denials as law;

use crate::case::Case;
use crate::kind_and_class::{is_no_pump, is_no_valve};
use fact_kinds::FactBody;

/// Paragraph (a): the repair needs a process unit shutdown.
const NEEDS_SHUTDOWN: u8 = 1;

/// Paragraph (c): the purge would emit more than the leak.
const PURGES: u8 = 3;

/// Paragraph (d): a dual mechanical seal is needed.
const NEEDS_DUAL_SEAL: u8 = 4;

/// Paragraph (e): valves are out of stock.
const OUT_OF_STOCK: u8 = 5;

/// Rule 9 (40 CFR 60.482-9a(c)): the purge would emit more, at anything but a valve.
pub fn purges_no_valve(case: &Case) -> bool
    ensures value { result ≡ law.purges_no_valve case.now }
{
    match *case.body() {
        FactBody::Delay { ground, .. } => ground == PURGES && is_no_valve(case.asked()),
        _ => false,
    }
}

/// Rule 10 (40 CFR 60.482-9a(d)): a dual seal for anything but a pump.
pub fn seals_no_pump(case: &Case) -> bool
    ensures value { result ≡ law.seals_no_pump case.now }
{
    match *case.body() {
        FactBody::Delay { ground, .. } => ground == NEEDS_DUAL_SEAL && is_no_pump(case.asked()),
        _ => false,
    }
}

/// Rule 11 (40 CFR 60.482-9a(e)): valves out of stock for anything but a valve.
pub fn stocks_no_valve(case: &Case) -> bool
    ensures value { result ≡ law.stocks_no_valve case.now }
{
    match *case.body() {
        FactBody::Delay { ground, .. } => ground == OUT_OF_STOCK && is_no_valve(case.asked()),
        _ => false,
    }
}

/// Rule 12 (40 CFR 60.486a(c)(6)): a delay until a shutdown lacks the signature of the person who decided it.
pub fn delay_unsigned(case: &Case) -> bool
    ensures value { result ≡ law.delay_unsigned case.now }
{
    match *case.body() {
        FactBody::Delay { ground, signer, .. } => ground == NEEDS_SHUTDOWN && signer == 0,
        _ => false,
    }
}

/// Rule 13 (40 CFR 60.486a(c)(7)): a delay that is not withdrawn lacks an expected day of repair.
pub fn repair_not_expected(case: &Case) -> bool
    ensures value { result ≡ law.repair_not_expected case.now }
{
    match *case.body() {
        FactBody::Delay {
            ground,
            expected,
            ..
        } => ground >= 1 && expected.is_none(),
        _ => false,
    }
}
