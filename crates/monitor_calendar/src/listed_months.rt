ghost use Rattle.monitor_calendar.specs.Covering.{IsFirstListed, Covers};

use crate::asked::Asked;

/// The months whose duties a list can contain.
#[derive(Clone, Copy)]
pub struct ListedMonths {
    /// The first month.
    pub low: u32,
    /// The month after the last one.
    pub end: u32,
}

impl Asked<'_> {
    /// The first month whose duties the list can contain.
    fn first_month(&self) -> u32
        ensures value { IsFirstListed self.now result }
    {
        let begin = self.item.begin.month().number();
        let earliest = self.earliest().month().number();
        if begin < earliest {
            earliest
        } else {
            begin + 1
        }
    }

    /// The months after the beginning whose duties the list can contain.
    pub fn listed_months(&self) -> ListedMonths
        ensures value { Covers self.now result }
    {
        let low = self.first_month();
        let end = self.day.month().number() + 1;
        ListedMonths { low, end }
    }
}
