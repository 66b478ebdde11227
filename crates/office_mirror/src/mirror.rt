//! A mirror: an office that takes the answers of another one, and asks itself to keep their batches.

ghost use Rattle.std.specs.Prelude.{◌≡◌, ℕ, ◌+◌, ◌≤◌, List, IsTrue, true, false, length};
ghost use Rattle.disk_model.specs.Faults.{Rose};
ghost use Rattle.fact_kinds.specs.declared.batch.Batch.{Batch as FactBatch};
ghost use Rattle.fact_kinds.specs.Identity.{identities_differ};
ghost use Rattle.ldar_journal.specs.Image.{batches_of};
ghost use Rattle.ldar_law.specs.Machine.{Call};
ghost use Rattle.ldar_law.specs.Verdicts.{is_ruly};
ghost use Rattle.office_book.specs.Safe.{Leads, state_of};
ghost use Rattle.office_mirror.specs.Fronts.{Asked, From, IsMirrorOf, IsReceiptAt};
ghost use Rattle.office_mirror.specs.Taking.{AsksOnce, IsTaken, KeepsMirror, MirrorsAs, ended_by};

use crate::answer::Answer;
use crate::copies::copy_of;
use crate::taken::Taken;
use disk_model::Disk;
use fact_kinds::Batch;
use ldar_law::{Reply, Request};
use office_book::{Book, Office};
use std::alloc::Global;
use std::marker::Model;

/// An office that mirrors another. In contracts it is its journal.
#[derive(Drop)]
pub struct Mirror<D: Disk> {
    book: Book<D>,
}

impl<D: Disk> Model for Mirror<D> {
    ghost use Rattle.ldar_journal.specs.Shelf.{Shelf};

    ghost Value = { Shelf D };

    ghost view = { λ m. m.book };
}

impl<D: Disk> Mirror<D> {
    /// The mirror over an office.
    pub fn new(book: Book<D>) -> Mirror<D>
        ensures value { result ≡ book }
    {
        Mirror { book }
    }

    /// How many batches are held. Batches in doubt do not count.
    pub fn held(&self) -> u32
        ensures value { result ≡ length (batches_of self.now.frames) }
    {
        self.book.counts().0
    }

    /// The office of the mirror, to look at.
    pub fn book(&self) -> &Book<D>
        ensures value { result.now ≡ self.now }
    {
        &self.book
    }

    /// The office of the mirror.
    pub fn into_book(self) -> Book<D>
        ensures value { result ≡ self }
    {
        self.book
    }

    /// Takes an answer: asks for its batches in order, each in a call of its own, until one is not receipted in its place.
    pub fn take(&mut self, alloc: Global, answer: &Answer) -> Taken
        // What was asked, and the result.
        ensures value { (calls : List Call) × Leads D.content D.left D.clock D.name D.faults self.old calls self.new
            × IsTaken answer.now (length (batches_of self.old.frames)) (batches_of self.new.frames) calls result }

        // The same as steps of the machine, which the law of two offices takes.
        ensures steps { Asked (state_of self.old) (answer.now.start + 1) answer.now.batches (state_of self.new) }

        // A mirror of any history stays one if the batches are those of the history.
        ensures mirrors { (all : List FactBatch) → IsTrue (is_ruly all) → IsTrue (identities_differ all) → IsMirrorOf all (state_of self.old)
            → From all answer.now → KeepsMirror D.content D.left D.clock all self.old self.new × MirrorsAs answer.now result }
        ensures cause { result ≡ Taken.Fault → Rose (D.faults self.old.disk) (D.faults self.new.disk) }
        ensures unchanged { (start held : ℕ) → result ≡ Taken.Gap start held → self.new ≡ self.old }
    {
        self.take_near(alloc, answer)
    }

    /// Takes an answer that starts after no more batches than are held. Any other is a gap.
    fn take_near(&mut self, alloc: Global, answer: &Answer) -> Taken
        ensures value { (calls : List Call) × Leads D.content D.left D.clock D.name D.faults self.old calls self.new
            × IsTaken answer.now (length (batches_of self.old.frames)) (batches_of self.new.frames) calls result }
        ensures unchanged { (start held : ℕ) → result ≡ Taken.Gap start held → self.new ≡ self.old }
    {
        let held = self.held();
        if answer.start > held {
            return Taken::Gap {
                start: answer.start,
                held,
            };
        }
        self.take_batches(alloc, answer)
    }

    /// Asks for the batches of an answer that starts after no more batches than are held.
    fn take_batches(&mut self, alloc: Global, answer: &Answer) -> Taken
        requires near { answer.now.start ≤ length (batches_of self.old.frames) }
        ensures value { (calls : List Call) × Leads D.content D.left D.clock D.name D.faults self.old calls self.new
            × IsTaken answer.now (length (batches_of self.old.frames)) (batches_of self.new.frames) calls result }
        ensures no_gap { (start held : ℕ) → ¬ (result ≡ Taken.Gap start held) }
    {
        let batches = answer.batches.as_slice();
        for index in 0..batches.len() {
            let position = u64::from(answer.start) + index as u64 + 1;
            let reply = self.ask(alloc, &batches[index]);
            if !is_receipt_at(&reply, position) {
                return ended(reply, index as u8 + 1);
            }
        }
        Taken::Held { count: self.held() }
    }

    /// Asks for a batch to be kept.
    fn ask(&mut self, alloc: Global, batch: &Batch) -> Reply
        ensures value { (calls : List Call) × Leads D.content D.left D.clock D.name D.faults self.old calls self.new
            × AsksOnce batch.now result calls }
    {
        match copy_of(alloc, batch) {
            Ok(copy) => self.book.ask(alloc, &Request::Sync(copy)),
            Err(_) => Reply::Memory,
        }
    }
}

/// Whether the reply is a receipt of this position.
fn is_receipt_at(reply: &Reply, position: u64) -> bool
    ensures yes { result ≡ true → IsReceiptAt reply.now position }
    ensures no { result ≡ false → ¬ (IsReceiptAt reply.now position) }
{
    match reply {
        Reply::Receipt {
            handheld: _,
            number: _,
            position: at,
        } => u64::from(*at) == position,
        Reply::Conflict { .. }
        | Reply::Denied { .. }
        | Reply::Full { .. }
        | Reply::Shown(_)
        | Reply::NoSuch(_)
        | Reply::Fault
        | Reply::Memory => false,
    }
}

/// The result of an answer that ends with this reply to the batch with this index, from 1.
fn ended(reply: Reply, index: u8) -> Taken
    ensures value { result ≡ ended_by reply index }
{
    match reply {
        Reply::Fault => Taken::Fault,
        Reply::Memory => Taken::Memory,
        reply => Taken::Stranger { index, reply },
    }
}
