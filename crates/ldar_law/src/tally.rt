ghost use Rattle.std.specs.Prelude.{◌≡◌, true, ◌<◌};
ghost use Rattle.ldar_law.specs.Percent.{is_good as says_good};
ghost use Rattle.ldar_law.specs.Tallies.{with_mark};
ghost use Rattle.ldar_law.specs.declared.numbers.TheConstants.{MOST_COMPONENTS};

/// What one valve adds to the counts of a quarter (40 CFR 60.485a(h)).
#[derive(Clone, Copy, Debug, PartialEq, Eq)]
pub struct Mark {
    pub leaking: bool,
    pub monitored: bool,
}

/// The counts of valves of a process unit in a quarter. Their quotient is the percent leaking (40 CFR 60.485a(h)).
#[derive(Clone, Copy, Debug, PartialEq, Eq)]
pub struct Tally {
    pub leaking: u32,
    pub monitored: u32,
}

impl Tally {
    /// Counts one more valve.
    pub fn add(&mut self, mark: Mark)
        requires leaking { self.old.leaking < MOST_COMPONENTS }
        requires monitored { self.old.monitored < MOST_COMPONENTS }
        ensures value { self.new ≡ with_mark self.old mark }
    {
        self.leaking += u32::from(mark.leaking);
        self.monitored += u32::from(mark.monitored);
    }

    /// Removes a valve that was counted; counting it again restores the counts.
    pub fn remove(&mut self, mark: Mark)
        requires leaking { mark.leaking ≡ true → 0 < self.old.leaking }
        requires monitored { mark.monitored ≡ true → 0 < self.old.monitored }
        ensures value { with_mark self.new mark ≡ self.old }
    {
        self.leaking -= u32::from(mark.leaking);
        self.monitored -= u32::from(mark.monitored);
    }

    /// Whether the quarter is good: at least one valve was monitored, and at most 2 percent of those monitored leak (40
    /// CFR 60.483-2a(b)(2)).
    pub fn is_good(&self) -> bool
        ensures value { result ≡ says_good self.now }
    {
        0 < self.monitored && 50 * u64::from(self.leaking) <= u64::from(self.monitored)
    }
}
