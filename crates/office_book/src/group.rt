ghost use Rattle.std.specs.Prelude.{◌≡◌, ◌≢◌, ◌+◌, ◌-◌, ◌<◌, ◌≤◌, ◌^◌, [], ◌∷◌, ◌++◌, length, take, replicate, IfOk};
ghost use Rattle.std.specs.List.{AllByRecursion};
ghost use Rattle.disk_model.specs.Faults.{Rose};
ghost use Rattle.fact_kinds.specs.declared.limits.TheConstants.{FRAME_BATCHES};
ghost use Rattle.ldar_journal.specs.Crash.{AnswersInRoom};
ghost use Rattle.ldar_journal.specs.Image.{batches_of};
ghost use Rattle.ldar_law.specs.declared.reply.Reply.TheVariants as replied;
ghost use Rattle.ldar_law.specs.declared.request.Request.TheVariants as asked;
ghost use Rattle.ldar_law.specs.Machine.{Call};
ghost use Rattle.office_book.specs.Archive.{MayCome};
ghost use Rattle.office_interface.specs.Asking.{requests_of, replies_of, IsSync, MayShareFrame, HasRule};
ghost use Rattle.office_book.specs.Grouped.{IsOfHandheld, IsSorted, IsTold, IsUnwritten};
ghost use Rattle.office_book.specs.Moves.{Moves};
ghost use Rattle.office_book.specs.Room.{AddsNothing, HasRoom, HasRoomFor, IsNoFault};
ghost use Rattle.office_book.specs.Safe.{Leads, state_of};
ghost use Rattle.office_book.specs.Serving.{added, certain, Serves};

use crate::Memory;
use crate::book::Book;
use crate::copies::copy_of;
use crate::frame::Written;
use disk_model::Disk;
use fact_kinds::Batch;
use ldar_law::{Reply, Request};
use std::alloc::Global;

/// The batches that a group adds, each after those before it, and the number of requests before the first that adds one.
#[derive(Drop)]
struct Sorted {
    batches: Vec<Batch>,
    first: usize,
}

impl<D: Disk> Book<D> {
    /// Answers 1 to 16 batches that are sent in one call, and puts each reply in its place. The new ones that pass are kept as
    /// one frame of the journal. Batches in doubt are settled first. If it runs out of memory, each batch that would be kept
    /// gets the reply `Memory`, and nothing is written; all other replies take no memory.
    pub(crate) fn sync(&mut self, alloc: Global, requests: &[Request], replies: &mut [Reply])
        requires some { 0 < length requests.now }
        requires fits { length requests.now ≤ FRAME_BATCHES }
        requires syncs { AllByRecursion IsSync requests.now }
        requires alike { MayShareFrame requests.now }
        requires each { length replies.old ≡ length requests.now }
        ensures value { (call : Call) × Leads D.content D.left D.clock D.name D.faults self.old (call ∷ []) self.new
            × (requests_of call ≡ requests.now) × (replies_of call ≡ replies.new) × (call.end.clock ≤ D.clock self.new.disk) }
        ensures ruled { AllByRecursion HasRule replies.new }
        ensures untouched { self.old.doubt ≡ []
            → AddsNothing (batches_of self.old.frames) (batches_of self.new.frames) requests.now replies.new → self.new ≡ self.old }

        // On a disk with a known room.
        ensures roomy { AnswersInRoom D.room D.clock 6 self.old.disk self.new.disk
            (λ room. HasRoomFor self.old requests.now room → AllByRecursion IsNoFault replies.new) }
    {
        if self.settle_first().is_err() {
            put_faults(replies, 0);
            return;
        }
        self.keep(alloc, requests, replies);
    }

    /// Answers batches that are sent in one call, with nothing in doubt.
    fn keep(&mut self, alloc: Global, requests: &[Request], replies: &mut [Reply])
        requires settled { self.old.doubt ≡ [] }
        requires fits { length requests.now ≤ FRAME_BATCHES }
        requires syncs { AllByRecursion IsSync requests.now }
        requires alike { MayShareFrame requests.now }
        requires each { length replies.old ≡ length requests.now }
        ensures serves { Serves (Rose (D.faults self.old.disk) (D.faults self.new.disk)) (batches_of self.old.frames) requests.now replies.new (state_of self.new) }
        ensures ruled { AllByRecursion HasRule replies.new }
        ensures moves { Moves D.content D.images D.left D.clock D.name D.faults self.old self.new 1 }
        ensures untouched { AddsNothing (batches_of self.old.frames) (batches_of self.new.frames) requests.now replies.new → self.new ≡ self.old }
        ensures roomy { AnswersInRoom D.room D.clock 4 self.old.disk self.new.disk
            (λ room. HasRoom self.old.frames (added (batches_of self.old.frames) requests.now) room → AllByRecursion IsNoFault replies.new) }
    {
        self.stands();
        let next = self.next_position();
        match self.sort(alloc, next, requests, replies) {
            Ok(sorted) => self.write_sorted(alloc, next, requests, replies, sorted),
            Err(_) => self.leave(next, requests, replies),
        }
    }

    /// Puts in each place the reply if all added batches are kept.
    fn sort(
        &self,
        alloc: Global,
        next: u32,
        requests: &[Request],
        replies: &mut [Reply],
    ) -> Result<Sorted, Memory>
        requires next { next ≡ length (batches_of self.now.frames) + 1 }
        requires room { next + FRAME_BATCHES < 2 ^ 32 }
        requires may_come { MayCome (batches_of self.now.frames) [] }
        requires fits { length requests.now ≤ FRAME_BATCHES }
        requires syncs { AllByRecursion IsSync requests.now }
        requires alike { MayShareFrame requests.now }
        requires each { length replies.old ≡ length requests.now }
        ensures sorted { IfOk result (λ sorted. IsSorted (batches_of self.now.frames) requests.now replies.new sorted.batches.items sorted.first) }
        ensures each { length replies.new ≡ length replies.old }
    {
        let mut batches = Vec::new(alloc);
        let mut first = 0;
        for (place, request) in requests.iter().enumerate() {
            let Request::Sync(batch) = request else {
                unreachable!();
            };
            let reply = self.told(alloc, next, batch, &mut batches)?;
            replies[place] = reply;
            first = more_before(first, &batches);
        }
        Ok(Sorted { batches, first })
    }

    /// The reply to a batch after others of its group, if those are kept. If it is new and passes, it is added to them.
    fn told(
        &self,
        alloc: Global,
        next: u32,
        batch: &Batch,
        others: &mut Vec<Batch>,
    ) -> Result<Reply, Memory>
        requires next { next ≡ length (batches_of self.now.frames) + 1 }
        requires room { next + FRAME_BATCHES < 2 ^ 32 }
        requires may_come { MayCome (batches_of self.now.frames) others.old.items }
        requires alike { AllByRecursion IsOfHandheld others.old.items }
        requires few { length others.old.items < FRAME_BATCHES }
        ensures told { IfOk result (IsTold (batches_of self.now.frames) batch.now others.old.items others.new.items) }
    {
        if let Some(reply) = self.refusal(next, batch, others) {
            return Ok(reply);
        }
        let position = next + others.len() as u32;
        others.push(copy_of(alloc, batch)?)?;
        Ok(Reply::Receipt {
            handheld: batch.handheld,
            number: batch.number,
            position,
        })
    }

    /// Writes the batches that a group adds. For batches that are not kept, it replaces the reply by `Fault` or
    /// `Memory`.
    fn write_sorted(
        &mut self,
        alloc: Global,
        next: u32,
        requests: &[Request],
        replies: &mut [Reply],
        sorted: Sorted,
    )
        requires settled { self.old.doubt ≡ [] }
        requires next { next ≡ length (batches_of self.old.frames) + 1 }
        requires room { next + FRAME_BATCHES < 2 ^ 32 }
        requires may_come { MayCome (batches_of self.old.frames) [] }
        requires fits { length requests.now ≤ FRAME_BATCHES }
        requires syncs { AllByRecursion IsSync requests.now }
        requires each { length replies.old ≡ length requests.now }
        requires sorted { IsSorted (batches_of self.old.frames) requests.now replies.old sorted.batches.items sorted.first }
        ensures serves { Serves (Rose (D.faults self.old.disk) (D.faults self.new.disk)) (batches_of self.old.frames) requests.now replies.new (state_of self.new) }
        ensures ruled { AllByRecursion HasRule replies.new }
        ensures moves { Moves D.content D.images D.left D.clock D.name D.faults self.old self.new 1 }
        ensures untouched { AllByRecursion IsNoFault replies.new → batches_of self.new.frames ≡ batches_of self.old.frames → self.new ≡ self.old }
        ensures roomy { AnswersInRoom D.room D.clock 4 self.old.disk self.new.disk
            (λ room. HasRoom self.old.frames sorted.batches.items room → AllByRecursion IsNoFault replies.new) }
    {
        let Sorted { batches, first } = sorted;
        if batches.is_empty() {
            self.stands();
            return;
        }
        match self.write(alloc, batches) {
            Written::Stands => {}
            Written::Fault => put_faults(replies, first),
            Written::Memory => self.leave(next, requests, replies),
        }
    }

    /// Puts in each place the reply if no batch is added, because it is out of memory.
    fn leave(&self, next: u32, requests: &[Request], replies: &mut [Reply])
        requires next { next ≡ length (batches_of self.now.frames) + 1 }
        requires room { next + FRAME_BATCHES < 2 ^ 32 }
        requires may_come { MayCome (batches_of self.now.frames) [] }
        requires syncs { AllByRecursion IsSync requests.now }
        requires each { length replies.old ≡ length requests.now }
        ensures unwritten { IsUnwritten (batches_of self.now.frames) requests.now replies.new }
    {
        for (place, request) in requests.iter().enumerate() {
            let Request::Sync(batch) = request else {
                unreachable!();
            };
            let reply = self.unwritten(next, batch);
            replies[place] = reply;
        }
    }

    /// The reply to a batch that is not added: `Memory` if it is new and passes.
    fn unwritten(&self, next: u32, batch: &Batch) -> Reply
        requires next { next ≡ length (batches_of self.now.frames) + 1 }
        requires room { next + FRAME_BATCHES < 2 ^ 32 }
        requires may_come { MayCome (batches_of self.now.frames) [] }
        ensures serves { Serves ⊥ (batches_of self.now.frames) (asked.Sync batch.now ∷ []) (result ∷ []) (certain (batches_of self.now.frames)) }
        ensures ruled { HasRule result }
    {
        match self.refusal(next, batch, &[]) {
            Some(reply) => reply,
            None => Reply::Memory,
        }
    }
}

/// The number of requests before the first one that adds a batch, with one more request, if these are the added
/// batches.
fn more_before(first: usize, batches: &[Batch]) -> usize
    requires few { first < 2 ^ 32 }
    ensures none { batches.now ≡ [] → result ≡ first + 1 }
    ensures some { batches.now ≢ [] → result ≡ first }
{
    if batches.is_empty() { first + 1 } else { first }
}

/// Replaces the replies from this place on by `Fault`.
fn put_faults(replies: &mut [Reply], from: usize)
    requires within { from ≤ length replies.old }
    ensures items { replies.new ≡ take from replies.old ++ replicate (length replies.old - from) replied.Fault }
{
    for place in from..replies.len() {
        replies[place] = Reply::Fault;
    }
}
