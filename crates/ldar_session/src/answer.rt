ghost use Rattle.std.specs.Prelude.{◌≡◌, ◌<◌, ◌≤◌, ◌⊎◌, ◌++◌, ◌↔◌, ℕ, List, [], ◌∷◌, length, IsTrue, Err, IfOk, IfErr, OnOk, OnErr};
ghost use Rattle.std.specs.List.{AllByRecursion};
ghost use Rattle.disk_model.specs.Faults.{Rose};
ghost use Rattle.ldar_law.specs.Machine.{Call};
ghost use Rattle.office_interface.specs.Asking.{requests_of, replies_of, MayShareFrame, HasRule};
ghost use Rattle.ldar_session.specs.Served.{Served, Talk, clock_beside, items_of};
ghost use Rattle.ldar_session.specs.Speech.{AreAnswered, AsksEach, GoesOn, HasAnswer, IsItem, Serves, answers_text};

use crate::Memory;
use crate::ended::Ended;
use crate::group::group_from;
use crate::item::Item;
use crate::protocol::Protocol;
use disk_model::Disk;
use fact_kinds::FRAME_BATCHES;
use ldar_law::{Reply, Request};
use ldar_ports::{Sink, put_all};
use office_interface::Office;
use std::alloc::Global;

/// The items that were answered in one call: their bytes, their number, and whether the last one closes the connection.
#[derive(Clone, Copy)]
pub struct Progress {
    pub used: usize,
    pub answers: usize,
    pub closing: bool,
}

/// Answers the item at the front of the bytes, with those of its group: at most `most` items. `before` bytes of the
/// input came before these.
pub fn answer_front<P: Protocol, O: Office, K: Sink>(
    alloc: Global,
    protocol: &P,
    office: &mut O,
    sink: &mut K,
    bytes: &[u8],
    first: Item,
    most: usize,
    before: u64,
) -> Result<Progress, Ended>
    requires some { 0 < most }
    requires fits { most ≤ FRAME_BATCHES }
    requires first { IsItem P.speech bytes.now first }
    ensures talk { (served : List Served) × (rest : List ℕ) × (unsaid : List ℕ)
        × Talk (HasAnswer P.speech) O.led (clock_beside O.Beside.clock O.beside_of) office.old office.new
        (K.pieces sink.old) (K.pieces sink.new) served unsaid
        × (bytes.now ≡ items_of served ++ rest)
        × GoesOn P.speech result bytes.now most before served rest unsaid }
    ensures only { IfErr result (λ ended. ¬ (ended ≡ Ended.ReadFault)) }
    ensures count { K.faults sink.old ≤ K.faults sink.new }
    ensures cause { result ≡ Err Ended.WriteFault → Rose (K.faults sink.old) (K.faults sink.new) }
{
    match first {
        Item::Asks(question) => {
            let Ok(group) = group_from::<P>(alloc, bytes, most, question) else {
                return Err(Ended::Memory);
            };
            let requests = &group.requests;
            match answer_group(alloc, protocol, office, sink, requests, group.closing) {
                Ok(()) => Ok(Progress {
                    used: group.used,
                    answers: group.requests.len(),
                    closing: group.closing,
                }),
                Err(ended) => Err(ended),
            }
        }
        Item::Says(unasked) => match put_all(sink, office.beside(), &unasked.text) {
            Ok(()) => Ok(Progress {
                used: unasked.used,
                answers: 1,
                closing: unasked.closing,
            }),
            Err(_) => Err(Ended::WriteFault),
        },
        Item::Away(text) => match put_all(sink, office.beside(), &text) {
            Ok(()) => Err(Ended::Refused { at: before }),
            Err(_) => Err(Ended::WriteFault),
        },
    }
}

/// Passes several requests to an office in one call, and then writes their answers. The last one closes the connection
/// or not.
fn answer_group<P: Protocol, O: Office, K: Sink>(
    alloc: Global,
    protocol: &P,
    office: &mut O,
    sink: &mut K,
    requests: &[Request],
    closing: bool,
) -> Result<(), Ended>
    requires some { 0 < length requests.now }
    requires fits { length requests.now ≤ FRAME_BATCHES }
    requires alike { MayShareFrame requests.now }
    ensures talk { (items : List (List ℕ)) → AsksEach P.speech closing items requests.now →
        (served : List Served) × (unsaid : List ℕ)
        × Talk (HasAnswer P.speech) O.led (clock_beside O.Beside.clock O.beside_of) office.old office.new
        (K.pieces sink.old) (K.pieces sink.new) served unsaid
        × AreAnswered P.speech closing served
        × Serves result items served unsaid }
    ensures only { IfErr result (λ ended. (ended ≡ Ended.WriteFault) ⊎ (ended ≡ Ended.Memory)) }
    ensures count { K.faults sink.old ≤ K.faults sink.new }
    ensures cause { result ≡ Err Ended.WriteFault → Rose (K.faults sink.old) (K.faults sink.new) }
{
    let Ok(replies) = ask(alloc, office, requests) else {
        return Err(Ended::Memory);
    };
    let Ok(answers) = text_of(alloc, protocol, replies, closing) else {
        return Err(Ended::Memory);
    };
    match put_all(sink, office.beside(), &answers) {
        Ok(()) => Ok(()),
        Err(_) => Err(Ended::WriteFault),
    }
}

/// Passes several requests to an office in one call. If it is out of memory, no request is passed on.
fn ask<O: Office>(alloc: Global, office: &mut O, requests: &[Request]) -> Result<Vec<Reply>, Memory>
    requires some { 0 < length requests.now }
    requires fits { length requests.now ≤ FRAME_BATCHES }
    requires alike { MayShareFrame requests.now }
    ensures value { IfOk result (λ replies. (call : Call) × O.led office.old (call ∷ []) office.new
        × (requests_of call ≡ requests.now) × (replies_of call ≡ replies.items)
        × AllByRecursion HasRule replies.items
        × (call.end.clock ≤ O.Beside.clock (O.beside_of office.new))) }
    ensures unchanged { OnErr result (office.new ≡ office.old) }
{
    let mut replies = Vec::with_capacity(alloc, requests.len())?;
    office.ask_group(alloc, requests, &mut replies)?;
    Ok(replies)
}

/// The answers to replies, one after the other. The last one closes the connection or not.
fn text_of<P: Protocol>(
    alloc: Global,
    protocol: &P,
    replies: Vec<Reply>,
    closing: bool,
) -> Result<Vec<u8>, Memory>
    requires { AllByRecursion HasRule replies.items }
    ensures value { IfOk result (λ text. text.items ≡ answers_text P.speech closing replies.items) }
{
    let mut rest = replies;
    let mut text = Vec::new(alloc);
    'replies: while !rest.is_empty() {
        let reply = rest.remove(0);
        protocol.put_reply(alloc, reply, closing && rest.is_empty(), &mut text)?;
    }
    Ok(text)
}
