ghost use Rattle.std.specs.Prelude.{◌≡◌, ◌++◌, IfOk, OnOk};
ghost use Rattle.ldar_law.specs.Replies.{reply_text};
ghost use Rattle.office_interface.specs.Asking.{HasRule};
ghost use Rattle.ldar_session.specs.Batches.{batch_speech};
ghost use Rattle.ldar_session.specs.Speech.{IsFront, NoOtherJoins};

use crate::Memory;
use crate::item::{Front, Item, Question};
use crate::protocol::Protocol;
use ldar_facts::{Read, read_batch};
use ldar_law::{Reply, Request};
use std::alloc::Global;

/// The maximum length of a batch, plus at least 4,096 bytes of room after the beginning of one.
pub const BATCH_WINDOW: usize = 16_384;

/// Binary batches, each answered by the line of its reply.
#[derive(Drop)]
pub struct Batches;

impl Protocol for Batches {
    ghost speech = { batch_speech };

    ghost knows = { λ batches bytes. Unit {0} };

    fn new() -> Batches {
        Batches
    }

    fn front(&mut self, alloc: Global, bytes: &[u8]) -> Result<Front, Memory> {
        Ok(match read_batch(alloc, bytes)? {
            Read::Whole { batch, used } => Front::Whole(Item::Asks(Question {
                request: Request::Sync(batch),
                used,
                closing: false,
            })),
            Read::Short => Front::Unfinished,
            Read::Bad { at } => Front::Wrong { at },
        })
    }

    fn put_reply(
        &self,
        alloc: Global,
        reply: Reply,
        _closing: bool,
        text: &mut Vec<u8>,
    ) -> Result<(), Memory> {
        reply.put_line(alloc, text)
    }
}
