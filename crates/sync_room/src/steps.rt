//! The steps at the table of a room, each with what the rule asks of it.
ghost use Rattle.std.specs.Prelude.{◌≡◌, ◌+◌, ◌<◌, ◌≤◌, ◌^◌, ◌==◌, ℕ, Some, [], ◌∷◌, length, MatchBool};
ghost use Rattle.ldar_journal.specs.Shelf.{Shelf};
ghost use Rattle.office_book.specs.Safe.{moment_of};
ghost use Rattle.sync_room.specs.Calls.{RoomCall, IsLegal, moment_after, calls_by};
ghost use Rattle.sync_room.specs.Rule.{idle, waits, works, keeps, after_draw, after_count, after_advance, split_view, joined_view, LooksIdle, LooksFor, KeepsCall};
ghost use Rattle.sync_room.specs.Turns.{IsDurable, Replies};

use crate::plays::{Advancing, Drawing, Joining, Keeping, Looking, Made, Serving, Telling};
use crate::rule::{Known, OneHistory};
use atomic_table::{Seat, Shared};
use disk_model::Disk;
use ldar_law::{Reply, Request};
use office_book::Book;
use std::marker::Brand;
use std::snapshot::Snapshot;

/// The table of a room.
pub type Board<D> = Shared<Option<Book<D>>, Known, Snapshot<Book<D>>, OneHistory>;

/// A seat at the table of a room.
pub type Place<D> = Seat<Option<Book<D>>, Known>;

/// Draws the ticket with this number if it is the next one. Returns the number that was the next one: that of the tickets drawn
/// before.
pub fn draw<D: Disk>(board: &Board<D>, seat: &mut Place<D>, next: u64) -> u64
    requires own { seat.old.table_id ≡ board.now.table_id }
    requires words { board.now.table_id.words ≡ 2 }
    requires idle { (seat.old.me.0.stage ≡ idle) × (seat.old.me.1 ≡ []) }
    requires bounded { next + 1 < 2 ^ 64 }
    ensures own { (seat.new.table_id ≡ seat.old.table_id) × (seat.new.id ≡ seat.old.id) }
    ensures draws { MatchBool (result == next) (seat.new.me ≡ (after_draw seat.old.me.0 result, seat.old.me.1))
        (seat.new.me ≡ (after_count seat.old.me.0 result, seat.old.me.1)) }
    ensures seen { length seat.old.me.0.seen ≤ result }
    ensures fresh { calls_by result seat.old.me.0.seen ≡ [] }
    ensures counted { seat.old.me.0.drawn ≤ result }
{
    board.compare_exchange::<Drawing>(seat, 0, next, next + 1)
}

/// Sees the history so far, and returns its length.
pub fn look<D: Disk>(board: &Board<D>, seat: &mut Place<D>) -> u64
    requires own { seat.old.table_id ≡ board.now.table_id }
    requires words { board.now.table_id.words ≡ 2 }
    requires idle { seat.old.me.0.stage ≡ idle }
    ensures own { (seat.new.table_id ≡ seat.old.table_id) × (seat.new.id ≡ seat.old.id) }
    ensures looks { LooksIdle seat.old.me result seat.new.me }
{
    board.load::<Looking>(seat, 1)
}

/// Sees the history so far, and returns its length. If that is this ticket, the book is taken.
pub fn look_served<D: Disk>(board: &Board<D>, seat: &mut Place<D>, _ticket: u64) -> u64
    requires own { seat.old.table_id ≡ board.now.table_id }
    requires words { board.now.table_id.words ≡ 2 }
    requires waits { (seat.old.me.0.stage ≡ waits _ticket) × (seat.old.me.1 ≡ []) }
    ensures own { (seat.new.table_id ≡ seat.old.table_id) × (seat.new.id ≡ seat.old.id) }
    ensures looks { LooksFor (moment_of D.clock D.faults) _ticket seat.old.me result seat.new.me }
{
    board.load::<Serving>(seat, 1)
}

/// Keeps a call that the book answered.
pub fn keep<D: Disk>(
    board: &Board<D>,
    seat: &mut Place<D>,
    ticket: u64,
    request: &Request,
    reply: &Reply,
    book: &Book<D>,
)
    requires own { seat.old.table_id ≡ board.now.table_id }
    requires words { board.now.table_id.words ≡ 2 }
    requires works { seat.old.me.0.stage ≡ works ticket }
    requires named { (name : ℕ) × (seat.old.me.0.own ≡ Some name) }
    requires legal { IsLegal seat.old.me.0.start seat.old.me.0.seen }
    requires turn { Replies (moment_after seat.old.me.0.start seat.old.me.0.seen) request.now reply.now (moment_of D.clock D.faults book.now) }
    ensures own { (seat.new.table_id ≡ seat.old.table_id) × (seat.new.id ≡ seat.old.id) }
    ensures keeps { KeepsCall request.now reply.now (moment_of D.clock D.faults book.now) ticket seat.old.me seat.new.me }
{
    keep_as::<D, Brand>(board, seat, ticket, request, reply, book);
}

/// Keeps a call that was picked.
fn keep_as<D: Disk, C: Made>(
    board: &Board<D>,
    seat: &mut Place<D>,
    _ticket: u64,
    _request: &Request,
    _reply: &Reply,
    _book: &Book<D>,
)
    requires picked { (C.request ≡ _request.now) × (C.reply ≡ _reply.now) × (C.after ≡ moment_of D.clock D.faults _book.now) }
    requires own { seat.old.table_id ≡ board.now.table_id }
    requires words { board.now.table_id.words ≡ 2 }
    requires works { seat.old.me.0.stage ≡ works _ticket }
    requires named { (name : ℕ) × (seat.old.me.0.own ≡ Some name) }
    requires legal { IsLegal seat.old.me.0.start seat.old.me.0.seen }
    requires turn { Replies (moment_after seat.old.me.0.start seat.old.me.0.seen) _request.now _reply.now (moment_of D.clock D.faults _book.now) }
    ensures own { (seat.new.table_id ≡ seat.old.table_id) × (seat.new.id ≡ seat.old.id) }
    ensures keeps { KeepsCall _request.now _reply.now (moment_of D.clock D.faults _book.now) _ticket seat.old.me seat.new.me }
{
    board.load::<Keeping<C>>(seat, 1);
}

/// Makes the call that is kept the last of the history, and puts the book back into its slot.
pub fn advance<D: Disk>(board: &Board<D>, seat: &mut Place<D>, _ticket: u64)
    requires own { seat.old.table_id ≡ board.now.table_id }
    requires words { board.now.table_id.words ≡ 2 }
    requires keeps { (call : RoomCall) × (book : Shelf D) × (seat.old.me.0.stage ≡ keeps _ticket call)
        × (seat.old.me.1 ≡ (0, Some book) ∷ []) × (moment_of D.clock D.faults book ≡ call.end) × IsDurable D.content D.images book }
    ensures own { (seat.new.table_id ≡ seat.old.table_id) × (seat.new.id ≡ seat.old.id) }
    ensures advances { (call : RoomCall) → seat.old.me.0.stage ≡ keeps _ticket call → seat.new.me ≡ (after_advance seat.old.me.0 call, []) }
{
    board.fetch_add::<Advancing>(seat, 1, 1);
}

/// Makes a seat beside this one, which has seen as much.
pub fn tell<D: Disk>(board: &Board<D>, seat: &mut Place<D>) -> Place<D>
    requires own { seat.old.table_id ≡ board.now.table_id }
    requires words { board.now.table_id.words ≡ 2 }
    requires idle { seat.old.me.0.stage ≡ idle }
    ensures own { (seat.new.table_id ≡ seat.old.table_id) × (result.table_id ≡ seat.old.table_id) }
    ensures same { seat.new.me ≡ seat.old.me }
    ensures new { result.me ≡ (split_view seat.old.me.0, []) }
{
    board.split_seat::<Telling>(seat)
}

/// Takes over what another seat has seen. The other seat is spent.
pub fn join<D: Disk>(board: &Board<D>, seat: &mut Place<D>, other: Place<D>)
    requires own { (seat.old.table_id ≡ board.now.table_id) × (other.table_id ≡ board.now.table_id) }
    requires words { board.now.table_id.words ≡ 2 }
    requires idle { (seat.old.me.0.stage ≡ idle) × (other.me.0.stage ≡ idle) × (other.me.1 ≡ []) }
    ensures own { seat.new.table_id ≡ seat.old.table_id }
    ensures joined { seat.new.me ≡ (joined_view seat.old.me.0 other.me.0, seat.old.me.1) }
{
    board.join_seat::<Joining>(seat, other);
}
