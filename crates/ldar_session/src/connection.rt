ghost use Rattle.std.specs.Prelude.{◌≡◌, ◌<◌, ◌≤◌, ◌⊎◌, ◌++◌, ℕ, List, length, Option, [], true};
ghost use Rattle.disk_model.specs.Faults.{Rose};
ghost use Rattle.ldar_ports.specs.Sink.{stamps_of};
ghost use Rattle.ldar_ports.specs.Source.{Takes};
ghost use Rattle.ldar_session.specs.Batches.{IsBatch};
ghost use Rattle.ldar_session.specs.Dock.{Ends as EndsBatches};
ghost use Rattle.ldar_session.specs.Requests.{HasItsAnswer};
ghost use Rattle.ldar_session.specs.Served.{Served, Stretch, Talk, AreWithin, clock_beside, items_of};
ghost use Rattle.ldar_session.specs.Session.{Ends as EndsRequests};
ghost use Rattle.ldar_session.specs.Speech.{AreAnswered, Ends, FitsInto, HasAnswer};

use crate::answer::answer_front;
use crate::batches::{BATCH_WINDOW, Batches};
use crate::ended::{Ended, MOST_ANSWERS};
use crate::input::{MOST_IN_HAND, next_item};
use crate::protocol::Protocol;
use crate::requests::{REQUEST_WINDOW, Requests};
use fact_kinds::FRAME_BATCHES;
use ldar_ports::{Sink, Source, Window};
use office_interface::Office;
use std::alloc::Global;

/// Passes the batches of an input to an office, and writes the lines of its replies. Batches of handhelds other than 0
/// that are in hand together are passed on in one call, up to 16. It waits for more input only if no whole batch is in
/// hand.
pub fn dock<O: Office, S: Source, K: Sink>(
    alloc: Global,
    office: &mut O,
    source: &mut S,
    sink: &mut K,
) -> Ended
    ensures talk { (served : List Served) × (rest : List ℕ) × (unsaid : List ℕ)
        × Takes (S.left source.old) (items_of served ++ rest) (S.left source.new)
        × (stretch : Stretch IsBatch O.led office.old office.new (K.pieces sink.old) (K.pieces sink.new) served unsaid)
        × EndsBatches result served rest (S.left source.new) unsaid
        × AreWithin O.led (clock_beside O.Beside.clock O.beside_of) office.new (stamps_of stretch.put) }
    ensures read_fault { result ≡ Ended.ReadFault → Rose (S.faults source.old) (S.faults source.new) }
    ensures write_fault { result ≡ Ended.WriteFault → Rose (K.faults sink.old) (K.faults sink.new) }
    ensures read_count { S.faults source.old ≤ S.faults source.new }
    ensures write_count { K.faults sink.old ≤ K.faults sink.new }
{
    connect::<Batches, O, S, K>(alloc, BATCH_WINDOW, office, source, sink)
}

/// Answers the HTTP requests of an input, in order. Batches of handhelds other than 0 whose requests are in hand together
/// are passed on in one call, up to 16. It waits for more input only if no whole request is in hand. The answer to a
/// request that closes the connection, or to refused bytes, is the last.
pub fn session<O: Office, S: Source, K: Sink>(
    alloc: Global,
    office: &mut O,
    source: &mut S,
    sink: &mut K,
) -> Ended
    ensures talk { (served : List Served) × (rest : List ℕ) × (unsaid : List ℕ)
        × Takes (S.left source.old) (items_of served ++ rest) (S.left source.new)
        × (stretch : Stretch HasItsAnswer O.led office.old office.new (K.pieces sink.old) (K.pieces sink.new) served unsaid)
        × EndsRequests result served rest (S.left source.new) unsaid
        × AreWithin O.led (clock_beside O.Beside.clock O.beside_of) office.new (stamps_of stretch.put) }
    ensures read_fault { result ≡ Ended.ReadFault → Rose (S.faults source.old) (S.faults source.new) }
    ensures write_fault { result ≡ Ended.WriteFault → Rose (K.faults sink.old) (K.faults sink.new) }
    ensures read_count { S.faults source.old ≤ S.faults source.new }
    ensures write_count { K.faults sink.old ≤ K.faults sink.new }
{
    connect::<Requests, O, S, K>(alloc, REQUEST_WINDOW, office, source, sink)
}

/// Answers the items of an input in order, until one closes the connection or bytes are refused. At most `size` bytes of
/// the input are in hand at once.
fn connect<P: Protocol, O: Office, S: Source, K: Sink>(
    alloc: Global,
    size: usize,
    office: &mut O,
    source: &mut S,
    sink: &mut K,
) -> Ended
    requires fits { FitsInto P.speech size }
    requires small { size ≤ MOST_IN_HAND }
    ensures talk { (served : List Served) × (rest : List ℕ) × (unsaid : List ℕ)
        × Takes (S.left source.old) (items_of served ++ rest) (S.left source.new)
        × Talk (HasAnswer P.speech) O.led (clock_beside O.Beside.clock O.beside_of) office.old office.new
        (K.pieces sink.old) (K.pieces sink.new) served unsaid
        × Ends P.speech result served rest (S.left source.new) unsaid }
    ensures read_fault { result ≡ Ended.ReadFault → Rose (S.faults source.old) (S.faults source.new) }
    ensures write_fault { result ≡ Ended.WriteFault → Rose (K.faults sink.old) (K.faults sink.new) }
    ensures read_count { S.faults source.old ≤ S.faults source.new }
    ensures write_count { K.faults sink.old ≤ K.faults sink.new }
{
    let Ok(mut window) = Window::new(alloc, size) else {
        return Ended::Memory;
    };
    let mut protocol = P::new();
    let mut answers = 0;
    let mut before = 0;
    while answers < MOST_ANSWERS {
        let first = match next_item(alloc, &mut protocol, source, &mut window, before) {
            Ok(first) => first,
            Err(ended) => return ended,
        };
        let most = FRAME_BATCHES.min(MOST_ANSWERS - answers);
        let bytes = window.bytes();
        let progress = match answer_front(
            alloc, &protocol, office, sink, bytes, first, most, before,
        ) {
            Ok(progress) => progress,
            Err(ended) => return ended,
        };
        window.drop_front(progress.used);
        before += progress.used as u64;
        answers += progress.answers;
        if progress.closing {
            return ended_closed::<P>(answers);
        }
    }
    Ended::Stopped
}

/// How a connection ended whose last item closes it, after this many answers.
fn ended_closed<P: Protocol>(answers: usize) -> Ended
    requires some { 0 < answers }
    requires most { answers ≤ MOST_ANSWERS }
    ensures value { (served : List Served) (rest : List ℕ) (left : Option (List ℕ)) → length served ≡ answers
        → AreAnswered P.speech true served → Ends P.speech result served rest left [] }
    ensures no_fault { (result ≡ Ended.Done) ⊎ (result ≡ Ended.Stopped) }
{
    if answers == MOST_ANSWERS {
        return Ended::Stopped;
    }
    Ended::Done
}
