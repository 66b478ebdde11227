use ldar_session::Ended;

/// How taking the answers of an input ended.
#[derive(Clone, Copy, Debug, PartialEq, Eq)]
pub enum MirrorEnded {
    /// The input ended or was wrong, the maximum number of answers was taken, or there was an error.
    Ended(Ended),
    /// The batch at this place of the last answer, from 1, is not of the history that the mirror holds. The answer has no line.
    Stranger(u8),
}
