ghost use Rattle.std.specs.Prelude.{◌≡◌, ◌<◌, IfOk};

use crate::offices::{WITH_TWELVE, calibration, opened};
use disk_model::MemoryDisk;
use ldar_law::Reply;
use office_book::Book;
use std::alloc::Global;
use std::sync::Wait;
use std::test::Fail;
use sync_room::{Pass, Room};

// A room over a book, and its first pass.
pub fn room_of(alloc: Global, book: Book<MemoryDisk>) -> Result<(Room<MemoryDisk>, Pass), Fail>
    ensures of_room { IfOk result (λ r. r.1.room ≡ r.0) }
{
    match Room::open_room(alloc, book) {
        Ok((room, pass)) => Ok((room, pass)),
        Err(_) => Err(Fail::from("a room")),
    }
}

// Asks to keep the batch of a handheld.
fn ask<R: Wait>(
    rt: &R,
    alloc: Global,
    room: &Room<MemoryDisk>,
    pass: Pass,
    batch: (u16, u32, u16),
) -> Result<(Pass, Reply), Fail>
    requires of_room { pass.room ≡ room.now }
    requires some { 0 < batch.2 }
    ensures of_room { IfOk result (λ r. r.0.room ≡ room.now) }
{
    let (handheld, number, gas) = batch;
    let request = calibration(alloc, handheld, number, gas)?;
    Ok(room.ask(rt, alloc, pass, &request))
}

#[test]
fn a_batch_is_kept_once_for_all_passes(rt: HostRuntime) -> Result<(), Fail> {
    let alloc = rt.alloc();
    let (room, pass) = room_of(alloc, opened(alloc, &WITH_TWELVE)?)?;
    let (pass, other) = room.split(alloc, pass);
    let other = other?;
    let (_pass, again) = ask(&rt, alloc, &room, pass, (7, 12, 500))?;
    let (_other, changed) = ask(&rt, alloc, &room, other, (7, 12, 501))?;
    assert!(rt; matches!(again, Reply::Receipt { position: 1, .. }));
    assert!(rt; matches!(changed, Reply::Conflict { position: 1 }));
    Ok(())
}

#[test]
fn a_room_closes_when_a_pass_was_dropped_after_its_reply(rt: HostRuntime) -> Result<(), Fail> {
    let alloc = rt.alloc();
    let (room, pass) = room_of(alloc, opened(alloc, &WITH_TWELVE)?)?;
    let (pass, other) = room.split(alloc, pass);
    let (dropped, _) = ask(&rt, alloc, &room, other?, (7, 13, 500))?;
    drop(dropped);
    let Ok(book) = room.close(alloc, pass) else {
        panic!(rt; "the room was not closed")
    };
    let (batches, _) = book.counts();
    assert_eq!(rt; batches, 2);
    Ok(())
}
