/// The verdict of the office's rules on a batch. Facts and rules count from 1.
#[derive(Clone, Copy, Debug, PartialEq, Eq)]
pub enum Verdict {
    Pass,
    /// The first fact that fails a rule, and the least rule that it fails.
    Denied { fact: u16, rule: u8 },
    /// With the batch there would be this many facts, which is more than 8,000,000.
    Full { facts: u64 },
}
