use ldar_law::Reply;

/// What came of an answer that a mirror took.
#[derive(Drop)]
pub enum Taken {
    /// The answer starts after `start` batches, and only `held` are held. Nothing was asked.
    Gap { start: u32, held: u32 },
    /// Each batch of the answer is held, and `count` are held in all.
    Held { count: u32 },
    /// The batch with this index, from 1, has another position, another content or is not kept: the answers are not of this
    /// history. The batches before it are held.
    Stranger { index: u8, reply: Reply },
    /// The disk failed. The batches before are held.
    Fault,
    /// Memory ran out. The batches before are held.
    Memory,
}
