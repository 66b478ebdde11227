ghost use Rattle.std.specs.Prelude.{◌≡◌, ◌+◌, ◌<◌, ◌^◌, max, if◌then◌else◌};
ghost use Rattle.ldar_law.specs.Slices.{is_registered as says_registered};
ghost use Rattle.batch_rules.specs.Among.{entered_or_0 as number_entered};

use fact_kinds::FactBody;
use ldar_law::is_registered;

/// How far a batch's entries in the register extend.
#[derive(Clone, Copy)]
pub struct Reach {
    /// The number of facts up to the last entry.
    pub count: usize,
    /// The greatest component number that they enter, or 0.
    pub greatest: u16,
}

/// The reach of no facts.
pub const NO_REACH: Reach = Reach {
    count: 0,
    greatest: 0,
};

/// The number of the component that a fact enters, or 0.
fn entered_or_0(body: &FactBody) -> u16
    ensures value { result ≡ number_entered body.now }
{
    match *body {
        FactBody::Component { component, .. } => component,
        _ => 0,
    }
}

impl Reach {
    /// The reach with one more fact, at this place of the batch.
    pub fn after(self, index: usize, body: &FactBody) -> Reach
        requires within { index < 2 ^ 16 }
        ensures count { result.count ≡ (if says_registered body.now then index + 1 else self.count) }
        ensures greatest { result.greatest ≡ max self.greatest (number_entered body.now) }
    {
        Reach {
            count: if is_registered(body) {
                index + 1
            } else {
                self.count
            },
            greatest: self.greatest.max(entered_or_0(body)),
        }
    }
}
