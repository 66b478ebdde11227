ghost use Rattle.std.specs.Prelude.{◌≡◌, ◌<◌, ◌≤◌, ◌⊎◌, ◌↔◌, true, length, drop, IsTrue, IfOk, OnOk, IfNone, IfSome};
ghost use Rattle.std.specs.List.{AllByRecursion};
ghost use Rattle.office_interface.specs.Asking.{IsFromHandheld};
ghost use Rattle.ldar_session.specs.Speech.{AreInFront, IsGroup, IsQuestion, NoneJoins};

use crate::Memory;
use crate::item::{Front, Item, Question};
use crate::protocol::Protocol;
use fact_kinds::FRAME_BATCHES;
use ldar_law::Request;
use std::alloc::Global;

/// The requests of a group, their number of bytes, and whether the last one closes the connection.
#[derive(Drop)]
pub struct Group {
    pub requests: Vec<Request>,
    pub used: usize,
    pub closing: bool,
}

/// The group of the request at the front: a batch of a handheld other than 0 is passed on with the whole batches of
/// such handhelds that follow it, at most `most` in all.
pub fn group_from<P: Protocol>(
    alloc: Global,
    bytes: &[u8],
    most: usize,
    first: Question,
) -> Result<Group, Memory>
    requires some { 0 < most }
    requires first { IsQuestion P.speech bytes.now first }
    ensures value { IfOk result (λ group. IsGroup P.speech bytes.now most group.requests.items group.closing group.used) }
{
    let is_alone = is_asked_alone(&first.request);
    let used = first.used;
    let closing = first.closing;
    let mut requests = Vec::with_capacity(alloc, FRAME_BATCHES)?;
    requests.push(first.request)?;
    let mut group = Group {
        requests,
        used,
        closing,
    };
    if is_alone {
        return Ok(group);
    }
    add_others::<P>(alloc, bytes, most, &mut group)?;
    Ok(group)
}

/// Adds the batches after those of a group, until one closes the connection, another item is at the front, or there are
/// `most` of them.
fn add_others<P: Protocol>(
    alloc: Global,
    bytes: &[u8],
    most: usize,
    group: &mut Group,
) -> Result<(), Memory>
    requires in_front { AreInFront P.speech bytes.now group.old.requests.items group.old.closing group.old.used }
    requires fits { length group.old.requests.items ≤ most }
    requires each { AllByRecursion IsFromHandheld group.old.requests.items }
    ensures in_front { AreInFront P.speech bytes.now group.new.requests.items group.new.closing group.new.used }
    ensures fits { length group.new.requests.items ≤ most }
    ensures each { AllByRecursion IsFromHandheld group.new.requests.items }
    ensures grows { length group.old.requests.items ≤ length group.new.requests.items }
    ensures full { OnOk result ((length group.new.requests.items ≡ most)
        ⊎ ((group.new.closing ≡ true) ⊎ NoneJoins P.speech (drop group.new.used bytes.now))) }
{
    'others: while group.requests.len() < most {
        if group.closing {
            return Ok(());
        }
        let Some(other) = next_other::<P>(alloc, &bytes[group.used..])? else {
            return Ok(());
        };
        let used = other.used;
        let closing = other.closing;
        group.requests.push(other.request)?;
        group.used += used;
        group.closing = closing;
    }
    Ok(())
}

/// The item at the front, if it is a batch of a handheld other than 0.
fn next_other<P: Protocol>(alloc: Global, bytes: &[u8]) -> Result<Option<Question>, Memory>
    ensures none { IfOk result (λ found. IfNone found (NoneJoins P.speech bytes.now)) }
    ensures found { IfOk result (λ found. IfSome found (IsQuestion P.speech bytes.now)) }
    ensures joins { IfOk result (λ found. IfSome found (λ other. IsFromHandheld other.request)) }
{
    let mut protocol = P::new();
    match protocol.front(alloc, bytes)? {
        Front::Whole(Item::Asks(question)) => {
            if is_asked_alone(&question.request) {
                return Ok(None);
            }
            Ok(Some(question))
        }
        Front::Whole(Item::Says(_) | Item::Away(_)) | Front::Unfinished | Front::Wrong { .. } => {
            Ok(None)
        }
    }
}

/// Whether a request never shares a frame of the journal: it is no batch, or a batch of handheld 0.
fn is_asked_alone(request: &Request) -> bool
    ensures value { IsTrue result ↔ (¬ (IsFromHandheld request.now)) }
{
    match request {
        Request::Sync(batch) => batch.handheld == 0,
        Request::Due { .. }
        | Request::Tags { .. }
        | Request::Delays { .. }
        | Request::Route { .. }
        | Request::Percent { .. }
        | Request::Report { .. } => true,
    }
}
