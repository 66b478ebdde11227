ghost use Rattle.std.specs.Prelude.{◌≡◌, ◌++◌, ℕ, List, IfOk, OnOk};
ghost use Rattle.office_interface.specs.Asking.{HasRule};
ghost use Rattle.ldar_session.specs.Speech.{Speech, IsFront, Learns, NoOtherJoins};

use crate::Memory;
use crate::item::Front;
use ldar_law::Reply;
use std::alloc::Global;

/// The protocol of a connection: how the bytes in hand are cut into items, the request of each, and the bytes of its
/// answer.
pub trait Protocol: Drop {
    /// How its items are read and answered.
    ghost speech: { Speech };

    /// What it knows about the bytes in hand while it awaits more of them.
    ghost knows: { Self → List ℕ → Type 0 };

    /// The state at the start, which knows nothing about the bytes.
    fn new() -> Self
        ensures known { (bytes : List ℕ) → knows result bytes };

    /// What is at the front of the bytes in hand.
    fn front(&mut self, alloc: Global, bytes: &[u8]) -> Result<Front, Memory>
        requires known { knows self.old bytes.now }
        ensures value { IfOk result (IsFront speech bytes.now) }
        ensures joins { IfOk result (NoOtherJoins speech bytes.now) }
        ensures known { IfOk result (Learns (knows self.new) bytes.now) };

    /// Appends the answer to a reply. The item closes the connection or not.
    fn put_reply(
        &self,
        alloc: Global,
        reply: Reply,
        closing: bool,
        text: &mut Vec<u8>,
    ) -> Result<(), Memory>
        requires ruled { HasRule reply }
        ensures value { OnOk result (text.new.items ≡ text.old.items ++ speech.says closing reply) };
}
