ghost use Rattle.std.specs.Prelude.{◌≡◌};
ghost use Rattle.ldar_law.specs.Replies.{what_text};

use fact_kinds::Batch;
use ldar_days::Day;

/// A request to the office: to keep a batch, or to show something as of a day. Numbers of units, quarters and halves
/// count from 1; a request may use numbers that do not exist.
#[derive(Drop)]
pub enum Request {
    Sync(Batch),
    Due {
        unit: u16,
        day: Day,
    },
    Tags {
        unit: u16,
        day: Day,
    },
    Delays {
        unit: u16,
        day: Day,
    },
    Route {
        unit: u16,
        day: Day,
        /// The maximum number of components in a route.
        stops: u16,
    },
    Percent {
        unit: u16,
        quarter: u16,
        day: Day,
    },
    Report {
        unit: u16,
        half: u16,
        day: Day,
    },
}

/// What does not exist.
#[derive(Clone, Copy, Debug, PartialEq, Eq)]
pub enum What {
    Unit,
    Quarter,
    Half,
    Day,
    Stops,
}

impl What {
    /// The word for it in the line of a reply.
    pub fn word(self) -> &'static str
        ensures value { result.now ≡ what_text self }
    {
        match self {
            What::Unit => "unit",
            What::Quarter => "quarter",
            What::Half => "half",
            What::Day => "day",
            What::Stops => "stops",
        }
    }
}
