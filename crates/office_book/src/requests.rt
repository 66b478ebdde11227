ghost use Rattle.std.specs.Prelude.{◌≡◌, ◌⊎◌, ◌+◌, ◌<◌, ◌≤◌, [], ◌∷◌, ◌++◌, length, replicate, vec_len, vec_capacity, true, false, OnOk, OnErr};
ghost use Rattle.std.specs.List.{AllByRecursion};
ghost use Rattle.fact_kinds.specs.declared.limits.TheConstants.{FRAME_BATCHES};
ghost use Rattle.ldar_journal.specs.Crash.{AnswersInRoom};
ghost use Rattle.ldar_journal.specs.Image.{batches_of};
ghost use Rattle.ldar_law.specs.declared.reply.Reply.TheVariants as replied;
ghost use Rattle.ldar_law.specs.Machine.{Call};
ghost use Rattle.office_interface.specs.Asking.{requests_of, replies_of, IsSync, MayShareFrame, HasRule};
ghost use Rattle.office_book.specs.Room.{AddsNothing, HasRoomFor, IsNoFault, PutsNoFault};
ghost use Rattle.office_book.specs.Safe.{Leads};
ghost use Rattle.office_book.specs.SafeLaws.{leads_stays, leads_joins};
ghost use Rattle.office_book.specs.Serving.{added};
ghost use Rattle.office_views.specs.Answers.{IsView};

use crate::Memory;
use crate::book::Book;
use disk_model::Disk;
use ldar_law::{Reply, Request};
use office_interface::Office;
use std::alloc::Global;
use std::slice::{from_mut, from_ref};

impl<D: Disk> Book<D> {
    /// Answers 1 to 16 requests of one call, and puts each reply in its place.
    fn answer(&mut self, alloc: Global, requests: &[Request], replies: &mut [Reply])
        requires some { 0 < length requests.now }
        requires fits { length requests.now ≤ FRAME_BATCHES }
        requires alike { MayShareFrame requests.now }
        requires each { length replies.old ≡ length requests.now }
        ensures value { (call : Call) × Leads D.content D.left D.clock D.name D.faults self.old (call ∷ []) self.new
            × (requests_of call ≡ requests.now) × (replies_of call ≡ replies.new) × (call.end.clock ≤ D.clock self.new.disk) }
        ensures ruled { AllByRecursion HasRule replies.new }
        ensures untouched { self.old.doubt ≡ []
            → AddsNothing (batches_of self.old.frames) (batches_of self.new.frames) requests.now replies.new → self.new ≡ self.old }
        ensures roomy { AnswersInRoom D.room D.clock 6 self.old.disk self.new.disk
            (λ room. HasRoomFor self.old requests.now room → AllByRecursion IsNoFault replies.new) }
    {
        let first = &requests[0];
        if is_sync(first) {
            self.sync(alloc, requests, replies);
            return;
        }
        let reply = self.view(first);
        replies[0] = reply;
    }
}

impl<D: Disk> Office for Book<D> {
    type Beside = D;

    ghost led = { λ old calls new. Leads D.content D.left D.clock D.name D.faults old calls new };

    ghost beside_of = { λ book. book.disk };

    fn ask(&mut self, alloc: Global, request: &Request) -> Reply
        ensures value { (call : Call) × Leads D.content D.left D.clock D.name D.faults self.old (call ∷ []) self.new
            × (requests_of call ≡ request.now ∷ []) × (replies_of call ≡ result ∷ [])
            × (call.end.clock ≤ D.clock self.new.disk) }
        ensures ruled { HasRule result }

        // With nothing in doubt, a request that adds no batch, or that runs out of memory, does not call the disk.
        ensures untouched { self.old.doubt ≡ []
            → (result ≡ Reply.Memory) ⊎ (added (batches_of self.old.frames) (request.now ∷ []) ≡ []) → self.new ≡ self.old }

        // On a disk with a known room.
        ensures roomy { AnswersInRoom D.room D.clock 6 self.old.disk self.new.disk
            (λ room. HasRoomFor self.old (request.now ∷ []) room → IsNoFault result) }
    {
        let mut reply = Reply::Fault;
        self.answer(alloc, from_ref(request), from_mut(&mut reply));
        reply
    }

    fn ask_group(
        &mut self,
        alloc: Global,
        requests: &[Request],
        replies: &mut Vec<Reply>,
    ) -> Result<(), Memory>
        requires some { 0 < length requests.now }
        requires fits { length requests.now ≤ FRAME_BATCHES }
        requires alike { MayShareFrame requests.now }
        ensures value { OnOk result ((call : Call) × Leads D.content D.left D.clock D.name D.faults self.old (call ∷ []) self.new
            × (requests_of call ≡ requests.now) × (replies.new.items ≡ replies.old.items ++ replies_of call)
            × AllByRecursion HasRule (replies_of call)
            × (call.end.clock ≤ D.clock self.new.disk)) }
        ensures unchanged { OnErr result ((self.new ≡ self.old) × (replies.new.items ≡ replies.old.items)) }

        // With nothing in doubt, a group that adds no batch and has no disk error does not call the disk.
        ensures untouched { self.old.doubt ≡ [] → PutsNoFault replies.old.items replies.new.items
            → batches_of self.new.frames ≡ batches_of self.old.frames → self.new ≡ self.old }

        // On a disk with a known room.
        ensures roomy { AnswersInRoom D.room D.clock 6 self.old.disk self.new.disk
            (λ room. HasRoomFor self.old requests.now room → PutsNoFault replies.old.items replies.new.items) }
    {
        replies.reserve(requests.len())?;
        let start = replies.len();
        push_faults(replies, requests.len());
        self.answer(alloc, requests, &mut replies[start..]);
        Ok(())
    }

    fn beside(&self) -> &D {
        self.disk()
    }

    ghost stays = { λ office. leads_stays D.content D.left D.clock D.name D.faults office };

    ghost joins = { λ a b c first second one two.
        leads_joins D.content D.left D.clock D.name D.faults a b c first second one two };
}

/// Appends this many `Fault` replies, for which there must be room. Each one is replaced by an answer.
fn push_faults(replies: &mut Vec<Reply>, count: usize)
    requires room { vec_len replies.old + count ≤ vec_capacity replies.old }
    ensures items { replies.new.items ≡ replies.old.items ++ replicate count replied.Fault }
{
    for _ in 0..count {
        replies.push_reserved(Reply::Fault);
    }
}

/// Whether the request is to keep a batch. All others are views.
fn is_sync(request: &Request) -> bool
    ensures sync { result ≡ true → IsSync request.now }
    ensures view { result ≡ false → IsView request.now }
{
    match request {
        Request::Sync(_) => true,
        Request::Due { .. }
        | Request::Tags { .. }
        | Request::Delays { .. }
        | Request::Route { .. }
        | Request::Percent { .. }
        | Request::Report { .. } => false,
    }
}
