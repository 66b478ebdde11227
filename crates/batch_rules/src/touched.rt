//! What is known of the components that the first facts of a batch change, while the share of difficult valves is counted over
//! the batch. Each fact is looked up and noted in a few steps, so that a count over a batch takes a time that grows with its
//! facts alone. The table takes 160 KB on the stack.

ghost use Rattle.std.specs.Prelude.{◌≡◌, ℕ, ◌+◌, ◌<◌, None, Some, nat_eq, get_or, if◌then◌else◌};
ghost use Rattle.fact_kinds.specs.declared.limits.TheConstants.{BATCH_FACTS};
ghost use Rattle.batch_rules.specs.Seen.{found_in, IsUpTo};

use crate::seen::{Seen, UNSEEN};
use fact_kinds::BATCH_FACTS;

/// The number of component numbers.
const NUMBERS: usize = 65_536;

/// The components that some facts of a batch changed, and what is known of them on a day.
#[derive(Clone, Copy)]
pub struct Touched {
    /// By component: the place of the last fact that changed it, counted from 1; 0 if none did.
    pub last: [u16; NUMBERS],
    /// By place, from 0: what is known of the component that the fact changed, after it.
    pub seen: [Seen; BATCH_FACTS],
}

/// No place for any component.
fn no_places() -> [u16; NUMBERS]
    ensures value { (number : ℕ) → number < 65_536 → get_or result number 0 ≡ 0 }
{
    [0; NUMBERS]
}

impl Touched {
    /// No fact changed anything.
    pub fn new() -> Touched
        ensures up_to { IsUpTo 0 result }
        ensures value { (number : ℕ) → number < 65_536 → found_in result number ≡ None }
    {
        Touched {
            last: no_places(),
            seen: [UNSEEN; BATCH_FACTS],
        }
    }

    /// What is known of a component, if a fact changed it.
    pub fn find(&self, component: u16) -> Option<Seen>
        requires up_to { IsUpTo BATCH_FACTS self.now }
        ensures value { result ≡ found_in self.now component }
    {
        let place = usize::from(self.last[usize::from(component)]);
        if place == 0 {
            return None;
        }
        Some(self.seen[place - 1])
    }

    /// Notes what is known of a component after the fact at a place, from 0, that changed it.
    pub fn note(&mut self, index: usize, component: u16, seen: Seen)
        requires within { index < BATCH_FACTS }
        requires up_to { IsUpTo index self.old }
        ensures up_to { IsUpTo (index + 1) self.new }
        ensures value { (number : ℕ) → number < 65_536
            → found_in self.new number ≡ (if nat_eq component number then Some seen else found_in self.old number) }
    {
        self.last[usize::from(component)] = index as u16 + 1;
        self.seen[index] = seen;
    }
}
