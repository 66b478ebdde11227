use fact_kinds::{Fact, component_of};

/// The number of facts that were read, and a sum over them, so that the compiler cannot leave out a read.
#[derive(Clone, Copy)]
pub struct Total {
    pub facts: u64,
    pub sum: u64,
}

impl Total {
    pub fn new() -> Total {
        Total { facts: 0, sum: 0 }
    }

    pub fn add(&mut self, fact: &Fact) {
        let component = component_of(&fact.body).unwrap_or(0);
        let said = u64::from(fact.day.number())
            ^ u64::from(fact.minute) << 16
            ^ u64::from(component) << 32;
        self.facts = self.facts.saturating_add(1);
        self.sum = self.sum.wrapping_mul(3).wrapping_add(said);
    }

    /// Counts facts without looking at them.
    pub fn count(&mut self, facts: usize) {
        self.facts = self.facts.saturating_add(facts as u64);
    }
}
