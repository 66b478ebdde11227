ghost use Rattle.std.specs.Prelude.{◌≡◌, ◌<◌, ◌≤◌, ◌*◌, ℕ, List, length, Option, Err, IfOk, IfErr, OnOk};
ghost use Rattle.disk_model.specs.Faults.{Rose};
ghost use Rattle.ldar_ports.specs.Source.{Takes, HasEnded};
ghost use Rattle.ldar_ports.specs.Window.{after_taking};
ghost use Rattle.ldar_session.specs.Speech.{EndsInput, FitsInto, IsItem};

use crate::ended::{Ended, MOST_ANSWERS};
use crate::item::{Front, Item};
use crate::protocol::Protocol;
use ldar_ports::{Source, Window};
use std::alloc::Global;

/// The maximum number of bytes of an input that are in hand at once.
pub const MOST_IN_HAND: usize = 1_048_576;

/// The next item, once it is in hand. `before` bytes of the input came before those in hand.
pub fn next_item<P: Protocol, S: Source>(
    alloc: Global,
    protocol: &mut P,
    source: &mut S,
    window: &mut Window,
    before: u64,
) -> Result<Item, Ended>
    requires known { P.knows protocol.old window.old.bytes }
    requires fits { FitsInto P.speech window.old.size }
    requires room { length window.old.bytes ≤ window.old.size }
    requires small { window.old.size ≤ MOST_IN_HAND }
    requires counted { before ≤ MOST_ANSWERS * MOST_IN_HAND }
    ensures taken { (taken : List ℕ) × Takes (S.left source.old) taken (S.left source.new)
        × (window.new ≡ after_taking window.old taken) }
    ensures item { IfOk result (IsItem P.speech window.new.bytes) }
    ensures known { OnOk result ((bytes : List ℕ) → P.knows protocol.new bytes) }
    ensures ended { IfErr result (λ ended. EndsInput P.speech ended before window.new.bytes (S.left source.new)) }
    ensures in_range { length window.new.bytes ≤ window.new.size }
    ensures count { S.faults source.old ≤ S.faults source.new }
    ensures cause { result ≡ Err Ended.ReadFault → Rose (S.faults source.old) (S.faults source.new) }
{
    'coming: loop {
        match protocol.front(alloc, window.bytes()) {
            Ok(Front::Whole(item)) => return Ok(item),
            Ok(Front::Unfinished) => {}
            Ok(Front::Wrong { at }) => {
                return Err(Ended::Refused {
                    at: before + at as u64,
                });
            }
            Err(_) => return Err(Ended::Memory),
        }
        match take_more::<P, S>(source, window) {
            Ok(()) => {}
            Err(ended) => return Err(ended),
        }
    }
}

/// Reads once, if more bytes are awaited after those in hand.
fn take_more<P: Protocol, S: Source>(source: &mut S, window: &mut Window) -> Result<(), Ended>
    requires awaits { P.speech.awaits window.old.bytes }
    requires room { length window.old.bytes < window.old.size }
    ensures taken { (taken : List ℕ) × Takes (S.left source.old) taken (S.left source.new)
        × (window.new ≡ after_taking window.old taken) }
    ensures some { OnOk result (length window.old.bytes < length window.new.bytes) }
    ensures ended { IfErr result (λ ended. (before : ℕ) → EndsInput P.speech ended before window.new.bytes (S.left source.new)) }
    ensures in_range { length window.new.bytes ≤ window.new.size }
    ensures count { S.faults source.old ≤ S.faults source.new }
    ensures cause { result ≡ Err Ended.ReadFault → Rose (S.faults source.old) (S.faults source.new) }
{
    match window.take_from(source) {
        Ok(0) => Err(ended_within::<P>(window.bytes())),
        Ok(_) => Ok(()),
        Err(_) => Err(Ended::ReadFault),
    }
}

/// How an input ended, with these bytes in hand, after which more are awaited.
fn ended_within<P: Protocol>(bytes: &[u8]) -> Ended
    ensures value { (before : ℕ) (left : Option (List ℕ)) → P.speech.awaits bytes.now → HasEnded left
        → EndsInput P.speech result before bytes.now left }
    ensures no_fault { ¬ (result ≡ Ended.ReadFault) }
{
    if bytes.is_empty() {
        return Ended::Done;
    }
    Ended::CutShort {
        got: bytes.len() as u64,
    }
}
