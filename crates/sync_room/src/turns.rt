//! A turn at the table: a ticket is drawn and waited for, the book is asked, and the call becomes the last of the history.
ghost use Rattle.std.specs.Prelude.{◌≡◌, ℕ, Some, [], ◌∷◌, IfOk, IfErr};
ghost use Rattle.ldar_journal.specs.Shelf.{Shelf};
ghost use Rattle.office_interface.specs.Asking.{HasRule};
ghost use Rattle.office_book.specs.Safe.{moment_of};
ghost use Rattle.sync_room.specs.Calls.{RoomCall, IsLegal, moment_after, calls_by};
ghost use Rattle.sync_room.specs.Passes.{IsFree};
ghost use Rattle.sync_room.specs.Rule.{idle, waits, works, after_draw, after_advance, DrawsLast, HasTurn, IsCall};
ghost use Rattle.sync_room.specs.Turns.{Replies};
ghost use Rattle.sync_room.specs.Why.{IsOut};

use crate::room::KeptWhy;
use crate::steps::{Board, Place, advance, draw, keep, look, look_served};
use disk_model::Disk;
use ldar_law::{Reply, Request};
use office_book::{Book, Office};
use std::alloc::Global;
use std::sync::Wait;

/// Draws a ticket. It waits for ever if 2^64 - 1 tickets were drawn.
pub fn next_ticket<R: Wait, D: Disk>(rt: &R, board: &Board<D>, seat: &mut Place<D>) -> u64
    requires own { seat.old.table_id ≡ board.now.table_id }
    requires words { board.now.table_id.words ≡ 2 }
    requires idle { (seat.old.me.0.stage ≡ idle) × (seat.old.me.1 ≡ []) }
    ensures own { (seat.new.table_id ≡ seat.old.table_id) × (seat.new.id ≡ seat.old.id) }
    ensures drawn { seat.new.me ≡ (after_draw seat.old.me.0 result, []) }
    ensures fresh { calls_by result seat.old.me.0.seen ≡ [] }
{
    for _ in rt.forever() {
        let next = board.peek(0);
        if next == u64::MAX {
            board.park(rt, 0, u32::MAX);
        } else if draw(board, seat, next) == next {
            return next;
        }
    }
    unreachable!()
}

/// Waits until the ticket is served, and takes the book.
pub fn await_turn<R: Wait, D: Disk>(rt: &R, board: &Board<D>, seat: &mut Place<D>, ticket: u64)
    requires own { seat.old.table_id ≡ board.now.table_id }
    requires words { board.now.table_id.words ≡ 2 }
    requires waits { (seat.old.me.0.stage ≡ waits ticket) × (seat.old.me.1 ≡ []) }
    requires none_joined { (seat.old.me.0.joined_seen ≡ []) × (seat.old.me.0.joined_names ≡ []) }
    ensures own { (seat.new.table_id ≡ seat.old.table_id) × (seat.new.id ≡ seat.old.id) }
    ensures turn { HasTurn (moment_of D.clock D.faults) ticket seat.old.me.0 seat.new.me }
{
    for _ in rt.forever() {
        let served = look_served(board, seat, ticket);
        if served == ticket {
            return;
        }
        board.park(rt, 1, (served & 0xffff_ffff) as u32);
    }
    unreachable!()
}

/// Draws the ticket that is served next, or sees that none is left: no call can come any more. If a drawn ticket is not served,
/// returns how many were drawn and how many served.
pub fn draw_last<D: Disk>(board: &Board<D>, seat: &mut Place<D>) -> Result<(), KeptWhy>
    requires own { seat.old.table_id ≡ board.now.table_id }
    requires words { board.now.table_id.words ≡ 2 }
    requires free { IsFree seat.old.me.0 }
    requires none { seat.old.me.1 ≡ [] }
    ensures own { seat.new.table_id ≡ seat.old.table_id }
    ensures last { IfOk result (λ _. DrawsLast seat.old.me.0 seat.new.me.0) }
    ensures out { IfErr result (λ why. IsOut seat.old.me.0 seat.new.me.0 why) }
    ensures none { IfErr result (λ _. seat.new.me.1 ≡ []) }
{
    let mut served = look(board, seat);
    while served < u64::MAX {
        let drawn = draw(board, seat, served);
        if drawn == served {
            return Ok(());
        }
        served = look(board, seat);
        if served < drawn {
            return Err(KeptWhy::Out { drawn, served });
        }
    }
    Ok(())
}

/// Asks the book, which was taken, and puts it back. The call becomes the last of the history when the book is back.
pub fn work<D: Disk>(
    alloc: Global,
    board: &Board<D>,
    seat: &mut Place<D>,
    ticket: u64,
    request: &Request,
) -> Reply
    requires own { seat.old.table_id ≡ board.now.table_id }
    requires words { board.now.table_id.words ≡ 2 }
    requires works { seat.old.me.0.stage ≡ works ticket }
    requires named { (name : ℕ) × (seat.old.me.0.own ≡ Some name) }
    requires legal { IsLegal seat.old.me.0.start seat.old.me.0.seen }
    requires book { (book : Shelf D) × (seat.old.me.1 ≡ (0, Some book) ∷ [])
        × (moment_of D.clock D.faults book ≡ moment_after seat.old.me.0.start seat.old.me.0.seen) }
    ensures own { (seat.new.table_id ≡ seat.old.table_id) × (seat.new.id ≡ seat.old.id) }
    ensures call { (call : RoomCall) × IsCall request.now result call.end seat.old.me.0 call
        × (seat.new.me ≡ (after_advance seat.old.me.0 call, [])) }
    ensures ruled { HasRule result }
{
    let Some(mut book) = board.exchange(seat, 0, None) else {
        unreachable!()
    };
    let reply = ask_once(alloc, &mut book, request);
    keep(board, seat, ticket, request, &reply, &book);
    book.stands();
    board.exchange(seat, 0, Some(book));
    advance(board, seat, ticket);
    reply
}

/// Asks the book, in one turn without a gap to the moment before it.
fn ask_once<D: Disk>(alloc: Global, book: &mut Book<D>, request: &Request) -> Reply
    ensures turn { Replies (moment_of D.clock D.faults book.old) request.now result (moment_of D.clock D.faults book.new) }
    ensures ruled { HasRule result }
{
    book.ask(alloc, request)
}
