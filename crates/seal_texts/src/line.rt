use pump_seals::{SealDuty, SealTag};

/// A line of the view: a duty or a tag of a component.
#[derive(Clone, Copy, Debug, PartialEq, Eq)]
pub enum SealLine {
    Duty { component: u16, duty: SealDuty },
    Tag { component: u16, tag: SealTag },
}
