ghost use Rattle.std.specs.Prelude.{◌≡◌, ◌≤◌, ◌∷◌, [], ℕ, List, map, IfOk};
ghost use Rattle.disk_model.specs.Faults.{Rose};
ghost use Rattle.ldar_law.specs.Replies.{reply_text, HasRule};
ghost use Rattle.ldar_law.specs.declared.request.Request.TheVariants.{Sync};
ghost use Rattle.office_book.specs.Safe.{Leads};
ghost use Rattle.office_commands.specs.Sending.{EndsAsking, IsOfBatch, IsSent, sent_as};
ghost use Rattle.ldar_session.specs.Served.{Served, Talk, clock_beside};

use disk_model::Disk;
use fact_kinds::{Batch, Memory};
use ldar_law::{Reply, Request};
use ldar_ports::{Sink, put_all};
use office_book::{Book, Office};
use std::alloc::Global;

/// How sending batches ended.
#[derive(Drop)]
pub enum Sent {
    /// Each batch got a receipt, and each line was written.
    Done,
    /// The last batch that was sent is not kept. Its line was written, or there was a write error.
    Unreceipted(Unkept),
    /// A write error. The batches that were sent got receipts.
    WriteFault,
    /// Out of memory for the line of a reply.
    Memory,
}

/// Why a batch is not kept.
#[derive(Clone, Copy, Debug, PartialEq, Eq)]
pub enum Unkept {
    /// Another batch with its identity is kept at this position.
    Conflict { position: u32 },
    /// It is denied for this fact and by this rule.
    Denied { fact: u16, rule: u8 },
    /// With it there would be this many facts.
    Full { facts: u64 },
    /// A disk error.
    Fault,
    /// Out of memory.
    Memory,
}

/// Sends batches to an office one after the other, and writes the line of each reply, up to and including the first that is
/// not a receipt. After a write error it sends no further batch.
pub fn send<D: Disk, K: Sink>(
    alloc: Global,
    book: &mut Book<D>,
    sink: &mut K,
    batches: Vec<Batch>,
) -> Sent
    ensures talk { (served : List Served) × (unsaid : List ℕ)
        × Talk IsSent (Leads D.content D.left D.clock D.name D.faults) (clock_beside D.clock (λ book. book.disk)) book.old book.new
        (K.pieces sink.old) (K.pieces sink.new) served unsaid
        × EndsAsking result (map Sync batches.items) served unsaid (K.faults sink.old) (K.faults sink.new) }
    ensures write_fault { result ≡ Sent.WriteFault → Rose (K.faults sink.old) (K.faults sink.new) }
    ensures write_count { K.faults sink.old ≤ K.faults sink.new }
{
    for batch in batches {
        match send_one(alloc, book, sink, batch) {
            Sent::Done => {}
            ended => return ended,
        }
    }
    Sent::Done
}

/// Sends one batch, and writes the line of its reply.
fn send_one<D: Disk, K: Sink>(alloc: Global, book: &mut Book<D>, sink: &mut K, batch: Batch) -> Sent
    ensures talk { (served : List Served) × (unsaid : List ℕ)
        × Talk IsSent (Leads D.content D.left D.clock D.name D.faults) (clock_beside D.clock (λ book. book.disk)) book.old book.new
        (K.pieces sink.old) (K.pieces sink.new) served unsaid
        × EndsAsking result (Sync batch ∷ []) served unsaid (K.faults sink.old) (K.faults sink.new) }
    ensures write_fault { result ≡ Sent.WriteFault → Rose (K.faults sink.old) (K.faults sink.new) }
    ensures write_count { K.faults sink.old ≤ K.faults sink.new }
{
    let reply = book.ask(alloc, &Request::Sync(batch));
    let Ok(line) = line_of(alloc, &reply) else {
        return Sent::Memory;
    };
    match put_all(sink, book.disk(), &line) {
        Ok(()) => if_receipt(&reply, Sent::Done),
        Err(_) => if_receipt(&reply, Sent::WriteFault),
    }
}

/// The line of a reply.
fn line_of(alloc: Global, reply: &Reply) -> Result<Vec<u8>, Memory>
    requires { HasRule reply.now }
    ensures value { IfOk result (λ line. line.items ≡ reply_text reply.now) }
{
    let mut line = Vec::new(alloc);
    reply.put_line(alloc, &mut line)?;
    Ok(line)
}

/// How the sending of a batch ends with this reply: as given if it is a receipt.
fn if_receipt(reply: &Reply, receipted: Sent) -> Sent
    requires of_batch { IsOfBatch reply.now }
    ensures value { result ≡ sent_as reply.now receipted }
{
    match reply {
        Reply::Receipt { .. } => receipted,
        Reply::Conflict { position } => Sent::Unreceipted(Unkept::Conflict {
            position: *position,
        }),
        Reply::Denied { fact, rule } => Sent::Unreceipted(Unkept::Denied {
            fact: *fact,
            rule: *rule,
        }),
        Reply::Full { facts } => Sent::Unreceipted(Unkept::Full { facts: *facts }),
        Reply::Fault => Sent::Unreceipted(Unkept::Fault),
        Reply::Memory => Sent::Unreceipted(Unkept::Memory),
        Reply::Shown(_) | Reply::NoSuch(_) => unreachable!(),
    }
}
