//! The room.
ghost use Rattle.std.specs.Prelude.{◌≡◌, ◌<◌, Some, ◌∷◌, [], IfOk, IfErr};
ghost use Rattle.office_interface.specs.Asking.{HasRule};
ghost use Rattle.office_book.specs.Safe.{moment_of};
ghost use Rattle.sync_room.specs.Calls.{moment_after};
ghost use Rattle.sync_room.specs.Passes.{Asked, Met, EndsAtMoment, SawMore, split_pass, new_pass};
ghost use Rattle.sync_room.specs.Rule.{SeesLast};
ghost use Rattle.sync_room.specs.Turns.{IsDurable};
ghost use Rattle.sync_room.specs.Why.{CountsOut};

use crate::Memory;
use crate::pass::Pass;
use crate::rule::{Known, OneHistory};
use crate::steps::{Place, join, look, tell};
use crate::turns::{await_turn, draw_last, next_ticket, work};
use atomic_table::{Refused, Table};
use disk_model::Disk;
use ldar_law::{Reply, Request};
use office_book::Book;
use std::alloc::{AllocFailed, Global};
use std::marker::Model;
use std::snapshot::Snapshot;
use std::sync::Wait;

/// One book, which threads ask in turn. It is shared by reference; each thread has a pass of its own.
#[derive(Drop)]
pub struct Room<D: Disk> {
    table: Table<Option<Book<D>>, Known, Snapshot<Book<D>>, OneHistory, Global>,
}

impl<D: Disk> Model for Room<D> {
    ghost use Rattle.std.specs.Prelude.{◌≡◌};
    ghost use Rattle.office_book.specs.Safe.{moment_of};
    ghost use Rattle.sync_room.specs.Passes.{RoomId};

    ghost Value = { RoomId };

    ghost view = { λ r. record { table = r.table.shared.table_id; start = moment_of D.clock D.faults r.table.shared.key.value } };

    ghost invariant = { λ r. (r.table.shared.table_id.words ≡ 2) × (r.table.shared.table_id.slots ≡ 1) };
}

/// Memory ran out. The book is as it was handed in.
#[derive(Drop)]
pub struct NoRoom<D: Disk> {
    pub book: Book<D>,
}

/// A room that was not closed, and the pass.
#[derive(Drop)]
pub struct Kept<D: Disk> {
    pub room: Room<D>,
    pub pass: Pass,
    pub why: KeptWhy,
}

/// Why a room was not closed.
#[derive(Clone, Copy, Debug, PartialEq, Eq)]
pub enum KeptWhy {
    /// Memory ran out. It is never returned: closing takes no memory.
    Memory,
    /// Of the `drawn` tickets only the first `served` were served.
    Out { drawn: u64, served: u64 },
}

impl<D: Disk> Room<D> {
    /// Opens a room with this book, and makes its first pass.
    pub fn open_room(alloc: Global, book: Book<D>) -> Result<(Room<D>, Pass), NoRoom<D>>
        ensures opened { IfOk result (λ r. (r.0.start ≡ moment_of D.clock D.faults book) × (r.1 ≡ new_pass r.0)) }
        ensures unchanged { IfErr result (λ e. e.book ≡ book) }
    {
        book.stands();
        let key = Snapshot::of(&book);
        let slots = slot_of(alloc, book)?;
        match Table::new(alloc, &[0, 0], slots, &key) {
            Ok((table, seat)) => Ok((Room { table }, Pass::of(seat))),
            Err(Refused { mut slots }) => {
                let Some(Some(book)) = slots.pop() else {
                    unreachable!()
                };
                Err(NoRoom { book })
            }
        }
    }

    /// Asks the book, once it is this caller's turn. It waits for ever if 2^64 - 1 tickets were drawn.
    pub fn ask<R: Wait>(
        &self,
        rt: &R,
        alloc: Global,
        pass: Pass,
        request: &Request,
    ) -> (Pass, Reply)
        requires of_room { pass.room ≡ self.now }
        ensures asked { Asked pass request.now result.1 result.0 }
        ensures ruled { HasRule result.1 }
    {
        let mut place = pass.into_place();
        let board = &self.table.shared;
        let ticket = next_ticket(rt, board, &mut place);
        await_turn(rt, board, &mut place, ticket);
        let reply = work(alloc, board, &mut place, ticket, request);
        board.wake_all(1);
        (Pass::of(place), reply)
    }

    /// Makes a pass that has seen as much, for another thread. It never runs out of memory.
    pub fn split(&self, _alloc: Global, pass: Pass) -> (Pass, Result<Pass, Memory>)
        requires of_room { pass.room ≡ self.now }
        ensures unchanged { result.0 ≡ pass }
        ensures split { IfOk result.1 (λ other. other ≡ split_pass pass) }
    {
        let mut place = pass.into_place();
        let other = tell(&self.table.shared, &mut place);
        (Pass::of(place), Ok(Pass::of(other)))
    }

    /// Makes one pass of two. It answers for the callers of both.
    pub fn meet(&self, pass: Pass, other: Pass) -> Pass
        requires of_room { (pass.room ≡ self.now) × (other.room ≡ self.now) }
        ensures met { Met pass other result }
    {
        let mut place = pass.into_place();
        join(&self.table.shared, &mut place, other.into_place());
        look(&self.table.shared, &mut place);
        Pass::of(place)
    }

    /// Gives the book back if every ticket that was drawn is served. Otherwise it gives the room and the pass back.
    pub fn close(self, _alloc: Global, pass: Pass) -> Result<Book<D>, Kept<D>>
        requires of_room { pass.room ≡ self }
        ensures closed { IfOk result (λ book. EndsAtMoment pass (moment_of D.clock D.faults book)) }
        ensures durable { IfOk result (IsDurable D.content D.images) }
        ensures unchanged { IfErr result (λ kept. (kept.room ≡ self) × SawMore pass kept.pass) }
        ensures cause { IfErr result (λ kept. CountsOut kept.pass kept.why) }
    {
        let mut place = pass.into_place();
        match draw_last(&self.table.shared, &mut place) {
            Ok(()) => Ok(end(self, place)),
            Err(why) => Err(Kept {
                room: self,
                pass: Pass::of(place),
                why,
            }),
        }
    }
}

/// Takes the book out of a room in which no call can come any more.
fn end<D: Disk>(room: Room<D>, place: Place<D>) -> Book<D>
    requires own { place.table_id ≡ room.table }
    requires last { SeesLast place.me.0 }
    ensures moment { moment_of D.clock D.faults result ≡ moment_after place.me.0.start place.me.0.seen }
    ensures durable { IsDurable D.content D.images result }
{
    let Room { table } = room;
    let mut closed = table.close_with(place);
    let slot = closed.take(0);
    closed.free();
    let Some(book) = slot else { unreachable!() };
    book.stands();
    book
}

/// The one slot of a room, with the book.
fn slot_of<D: Disk>(alloc: Global, book: Book<D>) -> Result<Vec<Option<Book<D>>>, NoRoom<D>>
    ensures made { IfOk result (λ slots. slots.items ≡ Some book ∷ []) }
    ensures unchanged { IfErr result (λ e. e.book ≡ book) }
{
    let mut slots = Vec::new(alloc);
    match slots.push(Some(book)) {
        Ok(()) => Ok(slots),
        Err(AllocFailed { value }) => {
            let Some(book) = value else { unreachable!() };
            Err(NoRoom { book })
        }
    }
}
