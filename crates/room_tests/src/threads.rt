ghost use Rattle.std.specs.Prelude.{◌≡◌, IfOk};

use crate::offices::{base, calibration};
use crate::rooms::room_of;
use disk_model::MemoryDisk;
use ldar_law::{Reply, Request};
use std::alloc::Global;
use std::sync::Wait;
use std::test::Fail;
use std::thread::{Threads, join};
use sync_room::{Pass, Room};

// Requests of a handheld to keep this many batches.
fn batches(alloc: Global, handheld: u16, count: u32) -> Result<Vec<Request>, Fail> {
    let mut requests = Vec::new(alloc);
    for number in 0..count {
        requests.push(calibration(alloc, handheld, number, 500)?)?;
    }
    Ok(requests)
}

// Asks each of the requests, and returns how many were receipted, each after the one before it.
fn send<R: Wait>(
    rt: &R,
    alloc: Global,
    room: &Room<MemoryDisk>,
    pass: Pass,
    requests: &[Request],
) -> (Pass, u32)
    requires of_room { pass.room ≡ room.now }
    ensures of_room { result.0.room ≡ room.now }
{
    let mut pass = pass;
    let mut last = 0;
    let mut receipts = 0u32;
    for request in requests {
        let (next, reply) = room.ask(rt, alloc, pass, request);
        pass = next;
        if let Reply::Receipt { position, .. } = reply {
            if position > last {
                last = position;
                receipts = receipts.saturating_add(1);
            }
        }
    }
    (pass, receipts)
}

// Asks the requests of each pass in a thread of its own.
fn send_both<R: Threads + Wait + Sync>(
    rt: &R,
    alloc: Global,
    room: &Room<MemoryDisk>,
    pass: Pass,
    other: Pass,
    seven: &[Request],
    eight: &[Request],
) -> ((Pass, u32), (Pass, u32))
    requires of_room { (pass.room ≡ room.now) × (other.room ≡ room.now) }
    ensures of_room { (result.0.0.room ≡ room.now) × (result.1.0.room ≡ room.now) }
{
    join(
        rt,
        || -> (Pass, u32)
            requires { pass.room ≡ room.now }
            ensures { result.0.room ≡ room.entry.now }
        { send(rt, alloc, room, pass, seven) },
        || -> (Pass, u32)
            requires { other.room ≡ room.now }
            ensures { result.0.room ≡ room.entry.now }
        { send(rt, alloc, room, other, eight) },
    )
}

// Two threads send batches at the same time. Returns how many batches are in the book afterwards.
fn two_threads_send<R: Threads + Wait + Sync>(
    rt: &R,
    alloc: Global,
    count: u32,
) -> Result<u32, Fail> {
    let seven = batches(alloc, 7, count)?;
    let eight = batches(alloc, 8, count)?;
    let (room, pass) = room_of(alloc, base(alloc)?)?;
    let (pass, other) = room.split(alloc, pass);
    let other = other?;
    let ((pass, first), (other, second)) = send_both(rt, alloc, &room, pass, other, &seven, &eight);
    if first != count || second != count {
        return Err(Fail::from("a batch was not receipted"));
    }
    let whole = room.meet(pass, other);
    match room.close(alloc, whole) {
        Ok(book) => {
            let (batches, _) = book.counts();
            Ok(batches)
        }
        Err(_) => Err(Fail::from("the room was not closed")),
    }
}

#[test]
fn two_passes_ask_once_each_and_meet(rt: HostRuntime) -> Result<(), Fail> {
    let batches = two_threads_send(&rt, rt.alloc(), 1)?;
    assert_eq!(rt; batches, 4);
    Ok(())
}

#[test]
fn two_threads_send_two_hundred_batches_each(rt: HostRuntime) -> Result<(), Fail> {
    let batches = two_threads_send(&rt, rt.alloc(), 200)?;
    assert_eq!(rt; batches, 402);
    Ok(())
}
