ghost use Rattle.std.specs.Prelude.{◌≡◌, ◌<◌, ◌≤◌, ◌↔◌, IfOk, IsTrue};
ghost use Rattle.disk_model.specs.Calls.{IsFailing, after_fault, after_pass};
ghost use Rattle.disk_model.specs.Faults.{Rose};

use crate::Memory;
use std::alloc::Global;
use std::marker::Model;

/// The calls of an object in memory, numbered from 0. Some of them fail, as given. The counts stay at 2^64 - 1 once
/// they reach it.
#[derive(Drop)]
pub struct Calls {
    failing: Vec<u64>,
    made: u64,
    faults: u64,
}

impl Model for Calls {
    ghost use Rattle.disk_model.specs.Calls.{CallCounts};

    ghost Value = { CallCounts };

    ghost view = { λ c. record { failing = c.failing.items; made = c.made; faults = c.faults } };
}

impl Calls {
    /// No calls yet; the calls with these numbers will fail.
    pub fn new(alloc: Global, failing: &[u64]) -> Result<Calls, Memory>
        ensures value { IfOk result (λ calls. calls
            ≡ record { failing = failing.now; made = 0; faults = 0 }) }
    {
        Ok(Calls {
            failing: Vec::from_slice(alloc, failing)?,
            made: 0,
            faults: 0,
        })
    }

    /// The number of calls made, including those that failed.
    pub fn made(&self) -> u64
        ensures value { result ≡ self.now.made }
    {
        self.made
    }

    /// The number of calls that failed.
    pub fn faults(&self) -> u64
        ensures value { result ≡ self.now.faults }
    {
        self.faults
    }

    /// Whether the next call will fail.
    pub fn is_failing(&self) -> bool
        ensures value { IsTrue result ↔ IsFailing self.now }
    {
        self.failing.contains(&self.made)
    }

    /// Counts a successful call.
    pub fn pass(&mut self)
        ensures value { self.new ≡ after_pass self.old }
    {
        self.made = self.made.saturating_add(1);
    }

    /// Counts a failed call.
    pub fn fail(&mut self)
        ensures value { self.new ≡ after_fault self.old }
        ensures count { self.old.faults ≤ self.new.faults }
        ensures cause { Rose self.old.faults self.new.faults }
    {
        self.made = self.made.saturating_add(1);
        self.faults = self.faults.saturating_add(1);
    }
}
