ghost use Rattle.std.specs.Prelude.{◌≡◌, ◌≤◌, ◌<◌, ◌⊎◌, true, false, length, map, replicate, IfOk, IfErr, OnErr};
ghost use Rattle.std.specs.String.{string_bytes};
ghost use Rattle.disk_model.specs.Faults.{Rose};
ghost use Rattle.disk_model.specs.Keeps.{Keeps};
ghost use Rattle.office_book.specs.Opened.{IsReason};
ghost use Rattle.office_book.specs.Safe.{moment_of};
ghost use Rattle.office_server.specs.Fronts.{EachClosed, OneFailed, desk_with};
ghost use Rattle.office_server.specs.Serving.{AreServed, HasBegun, HasNoOffice, HasServed, refused_as};
ghost use Rattle.office_server.specs.Words.{asks_for};
ghost use Rattle.sync_room.specs.Passes.{new_pass};

use crate::desks::{Desk, all_closed, desks_beside, meet_all};
use crate::words::{MOST_WORKERS, service_in};
use crate::workers::work_all;
use disk_model::Disk;
use ldar_ports::Front;
use office_book::{Book, BookError, BookWhy, open_book};
use std::alloc::Global;
use std::sync::Wait;
use std::thread::Threads;
use sync_room::{NoRoom, Pass, Room};

/// Serves the office of a journal to the connections of several fronts, side by side, and returns the exit status. The words
/// are `serve PORT WORKERS`, with as many workers as fronts. It returns once each front is closed or has failed.
pub fn serve<R: Threads + Wait + Sync, L: Front + Send, D: Disk + Send>(
    rt: &R,
    alloc: Global,
    words: &[String],
    fronts: &mut [L],
    disk: &mut D,
) -> u8
where
    L::In: Send,
    L::Out: Send,
    requires some { 0 < length fronts.old }
    requires most { length fronts.old ≤ MOST_WORKERS }

    // 2: the words ask for no service, or for another number of workers. Nothing is changed.
    ensures usage { asks_for (length fronts.old) (map string_bytes words.now) ≡ false → (result ≡ 2) ⊎ (result ≡ 6) }
    ensures usage_only { result ≡ 2 → asks_for (length fronts.old) (map string_bytes words.now) ≡ false }
    ensures disk_unchanged { result ≡ 2 → disk.new ≡ disk.old }

    // Until the office is open and there is memory for all workers, no connection is accepted.
    ensures unchanged { HasBegun result ⊎ (fronts.new ≡ fronts.old) }

    // 5: the disk failed while the journal was read. 7: its bytes are no office's. 6, out of memory, may always be returned.
    ensures disk_fault { result ≡ 5 → Rose (D.faults disk.old) (D.faults disk.new) }
    ensures no_office { result ≡ 7 → HasNoOffice (D.content disk.old) }
    ensures status { HasBegun result ⊎ ((result ≡ 2) ⊎ ((result ≡ 5) ⊎ ((result ≡ 6) ⊎ (result ≡ 7)))) }

    // 0: each front is closed. 12: one of them failed.
    ensures closed { result ≡ 0 → EachClosed L.left L.faults fronts.old fronts.new }
    ensures front_fault { result ≡ 12 → OneFailed L.faults fronts.old fronts.new }

    // What the fronts were served is one legal history of the office.
    ensures served { HasBegun result
        → HasServed L.left L.done (D.content disk.old) (D.faults disk.old) (D.clock disk.old) fronts.old fronts.new }
{
    match service_in(alloc, words) {
        Ok(Some(service)) => {
            if usize::from(service.workers) == fronts.len() {
                serve_journal(rt, alloc, fronts, disk)
            } else {
                2
            }
        }
        Ok(None) => 2,
        Err(_) => 6,
    }
}

/// The same without the words.
fn serve_journal<R: Threads + Wait + Sync, L: Front + Send, D: Disk + Send>(
    rt: &R,
    alloc: Global,
    fronts: &mut [L],
    disk: &mut D,
) -> u8
where
    L::In: Send,
    L::Out: Send,
    ensures status { HasBegun result ⊎ ((result ≡ 5) ⊎ ((result ≡ 6) ⊎ (result ≡ 7))) }
    ensures unchanged { HasBegun result ⊎ (fronts.new ≡ fronts.old) }
    ensures disk_fault { result ≡ 5 → Rose (D.faults disk.old) (D.faults disk.new) }
    ensures no_office { result ≡ 7 → HasNoOffice (D.content disk.old) }
    ensures closed { result ≡ 0 → EachClosed L.left L.faults fronts.old fronts.new }
    ensures front_fault { result ≡ 12 → OneFailed L.faults fronts.old fronts.new }
    ensures served { HasBegun result
        → HasServed L.left L.done (D.content disk.old) (D.faults disk.old) (D.clock disk.old) fronts.old fronts.new }
{
    match serve_over(rt, alloc, fronts, disk) {
        Ok(status) => status,
        Err(error) => refusal(error.why),
    }
}

/// The exit status if the office was not opened.
fn refusal(why: BookWhy) -> u8
    ensures value { result ≡ refused_as why }
{
    match why {
        BookWhy::Disk => 5,
        BookWhy::NotAJournal | BookWhy::Damaged { .. } | BookWhy::Unruly { .. } => 7,
        BookWhy::Memory => 6,
    }
}

/// The same over a disk that is handed back if the office was not opened.
fn serve_over<R: Threads + Wait + Sync, L: Front + Send, D: Disk + Send>(
    rt: &R,
    alloc: Global,
    fronts: &mut [L],
    disk: D,
) -> Result<u8, BookError<D>>
where
    L::In: Send,
    L::Out: Send,
    ensures unchanged { OnErr result (fronts.new ≡ fronts.old) }
    ensures reason { IfErr result (λ e. IsReason (D.content disk) e.why) }
    ensures cause { IfErr result (λ e. e.why ≡ BookWhy.Disk → Rose (D.faults disk) (D.faults e.disk)) }
    ensures keeps { IfErr result (λ e. Keeps D.clock D.name D.faults disk e.disk) }
    ensures ends { IfOk result (λ status. HasBegun status ⊎ ((status ≡ 6) × (fronts.new ≡ fronts.old))) }
    ensures closed { IfOk result (λ status. status ≡ 0 → EachClosed L.left L.faults fronts.old fronts.new) }
    ensures front_fault { IfOk result (λ status. status ≡ 12 → OneFailed L.faults fronts.old fronts.new) }
    ensures served { IfOk result (λ status. HasBegun status
        → HasServed L.left L.done (D.content disk) (D.faults disk) (D.clock disk) fronts.old fronts.new) }
{
    match open_book(alloc, disk) {
        Ok(book) => serve_book(rt, alloc, fronts, book),
        Err(error) => Err(error),
    }
}

/// The same with an office that is open.
fn serve_book<R: Threads + Wait + Sync, L: Front + Send, D: Disk + Send>(
    rt: &R,
    alloc: Global,
    fronts: &mut [L],
    book: Book<D>,
) -> Result<u8, BookError<D>>
where
    L::In: Send,
    L::Out: Send,
    ensures unchanged { OnErr result (fronts.new ≡ fronts.old) }
    ensures refused { IfErr result (λ e. (e.why ≡ BookWhy.Memory) × (e.disk ≡ book.disk)) }
    ensures ends { IfOk result (λ status. HasBegun status ⊎ ((status ≡ 6) × (fronts.new ≡ fronts.old))) }
    ensures closed { IfOk result (λ status. status ≡ 0 → EachClosed L.left L.faults fronts.old fronts.new) }
    ensures front_fault { IfOk result (λ status. status ≡ 12 → OneFailed L.faults fronts.old fronts.new) }
    ensures served { IfOk result (λ status. HasBegun status
        → AreServed L.left L.done (moment_of D.clock D.faults book) fronts.old fronts.new) }
{
    match Room::open_room(alloc, book) {
        Ok((room, first)) => Ok(serve_in(rt, alloc, fronts, room, first)),
        Err(NoRoom { book }) => Err(BookError {
            disk: book.into_disk(),
            why: BookWhy::Memory,
        }),
    }
}

/// One worker for each front, at a room whose first pass this is.
fn serve_in<R: Threads + Wait + Sync, L: Front + Send, D: Disk + Send>(
    rt: &R,
    alloc: Global,
    fronts: &mut [L],
    room: Room<D>,
    first: Pass,
) -> u8
where
    L::In: Send,
    L::Out: Send,
    requires first { first ≡ new_pass room }
    ensures ends { HasBegun result ⊎ ((result ≡ 6) × (fronts.new ≡ fronts.old)) }
    ensures closed { result ≡ 0 → EachClosed L.left L.faults fronts.old fronts.new }
    ensures front_fault { result ≡ 12 → OneFailed L.faults fronts.old fronts.new }
    ensures served { HasBegun result → AreServed L.left L.done room.start fronts.old fronts.new }
{
    let Ok((whole, desks)) = desks_beside(alloc, &room, first, fronts.len()) else {
        return 6;
    };
    let (closed, whole) = work_and_meet(rt, &room, fronts, whole, desks);
    // The book is not needed any more, and what was receipted is on its disk already.
    let _ = room.close(alloc, whole);
    if closed { 0 } else { 12 }
}

/// The workers work at their fronts, and then their passes meet. Returns whether each front is closed, and the pass.
fn work_and_meet<R: Threads + Wait + Sync, L: Front + Send, D: Disk + Send>(
    rt: &R,
    room: &Room<D>,
    fronts: &mut [L],
    first: Pass,
    desks: Vec<Desk>,
) -> (bool, Pass)
where
    L::In: Send,
    L::Out: Send,
    requires first { first ≡ new_pass room.now }
    requires desks { desks.items ≡ replicate (length fronts.old) (desk_with (new_pass room.now)) }
    ensures of_room { result.1.room ≡ room.now }
    ensures closed { result.0 ≡ true → EachClosed L.left L.faults fronts.old fronts.new }
    ensures front_fault { result.0 ≡ false → OneFailed L.faults fronts.old fronts.new }
    ensures served { AreServed L.left L.done room.now.start fronts.old fronts.new }
{
    let mut desks = desks;
    work_all(rt, room, fronts, desks.as_mut_slice());
    let closed = all_closed(desks.as_slice());
    (closed, meet_all(room, first, desks))
}
