/// The reason why a reading ended without a value.
#[derive(Clone, Copy)]
pub(crate) enum ReadEnd {
    /// The bytes were cut short.
    Short,
    /// A byte is wrong. `left` bytes are unread, the wrong one included.
    Wrong { left: usize },
}
