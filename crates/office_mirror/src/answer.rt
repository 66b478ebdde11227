ghost use Rattle.std.specs.Prelude.{◌≡◌, ◌<◌, ◌≤◌, length, vec_len, IfSome, IsNone};

use fact_kinds::Batch;
use std::marker::Model;

/// The maximum number of batches in an answer.
pub const MOST_BATCHES: usize = 16;

/// The batches of an answer, 1 to 16. In contracts it is its list.
#[derive(Drop)]
pub struct BatchList {
    batches: Vec<Batch>,
}

impl Model for BatchList {
    ghost use Rattle.std.specs.Prelude.{List, ◌<◌, ◌≤◌, vec_len};
    ghost use Rattle.fact_kinds.specs.declared.batch.Batch.{Batch};

    ghost Value = { List Batch };

    ghost view = { λ l. l.batches.items };

    ghost invariant = { λ l. (0 < vec_len l.batches) × (vec_len l.batches ≤ 16) };
}

impl BatchList {
    /// A list of these batches, or `None` if there are not 1 to 16.
    pub fn new(batches: Vec<Batch>) -> Option<BatchList>
        ensures none { IsNone result → ¬ ((0 < vec_len batches) × (vec_len batches ≤ MOST_BATCHES)) }
        ensures value { IfSome result (λ list. list ≡ batches.items) }
        ensures in_range { IfSome result (λ list. (0 < length list) × (length list ≤ MOST_BATCHES)) }
    {
        if (1..=MOST_BATCHES).contains(&batches.len()) {
            Some(BatchList { batches })
        } else {
            None
        }
    }

    /// The batches, in order.
    pub fn as_slice(&self) -> &[Batch]
        ensures value { result.now ≡ self.now }
        ensures in_range { (0 < length result.now) × (length result.now ≤ MOST_BATCHES) }
    {
        self.batches.as_slice()
    }

    /// Gives the batches back, without taking memory.
    pub fn into_vec(self) -> Vec<Batch>
        ensures value { result.items ≡ self }
        ensures in_range { (0 < vec_len result) × (vec_len result ≤ MOST_BATCHES) }
    {
        self.batches
    }
}

/// What an office offers another: the batches at the positions after `start`, which is the number of batches before them.
#[derive(Drop)]
pub struct Answer {
    pub start: u32,
    pub batches: BatchList,
}
