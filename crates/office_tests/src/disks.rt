use disk_model::{Disk, DiskFault, Memory, MemoryDisk, NoDisk, SureDisk};
use std::alloc::Global;
use std::process::Abort;
use std::test::Fail;

// A disk with the bytes `1 2 3`, on which the calls with these numbers fail.
fn of_three(alloc: Global, failing: &[u64]) -> Result<MemoryDisk, Memory> {
    MemoryDisk::new(alloc, &[1, 2, 3], failing)
}

// A place, the number of bytes requested, the number read, and the content of four bytes after the read.
type Read = (u64, usize, usize, [u8; 4]);

fn read<D: Disk>(disk: &mut D, at: u64, into: &mut [u8]) -> Result<usize, DiskFault> {
    disk.read_at(at, into)
}

fn write<D: Disk>(disk: &mut D, at: u64, bytes: &[u8]) -> Result<(), DiskFault> {
    disk.write_at(at, bytes)
}

fn sync<D: Disk>(disk: &mut D) -> Result<(), DiskFault> {
    disk.sync()
}

// Reads into the front of four bytes that are all 9.
fn read_four(disk: &mut MemoryDisk, at: u64, room: usize) -> Result<(usize, [u8; 4]), Fail> {
    let mut into = [9; 4];
    if room > 4 {
        return Err(Fail::from("more than four bytes are read"));
    }
    let n = read(disk, at, &mut into[..room])?;
    Ok((n, into))
}

const READS: [Read; 6] = [
    (0, 2, 2, [1, 2, 9, 9]),
    (1, 4, 2, [2, 3, 9, 9]),
    (2, 1, 1, [3, 9, 9, 9]),
    (3, 1, 0, [9, 9, 9, 9]),
    (u64::MAX, 1, 0, [9, 9, 9, 9]),
    (0, 0, 0, [9, 9, 9, 9]),
];

#[test]
fn reads_stop_at_the_end(rt: HostRuntime) -> Result<(), Fail> {
    let mut disk = of_three(rt.alloc(), &[])?;
    for (at, room, n, want) in READS {
        assert_eq!(rt; read_four(&mut disk, at, room)?, (n, want));
    }
    assert_eq!(rt; (disk.calls(), disk.now()), (6, 0));
    Ok(())
}

// Checks the content of a disk, the number of calls, and its clock.
fn stands(rt: &impl Abort, disk: &MemoryDisk, bytes: &[u8], calls: u64, clock: u64) {
    assert_eq!(rt; disk.bytes(), bytes);
    assert_eq!(rt; (disk.calls(), disk.now()), (calls, clock));
}

// A disk with the bytes `1 2 3` after a write of these bytes.
fn written(alloc: Global, at: u64, bytes: &[u8]) -> Result<MemoryDisk, Fail> {
    let mut disk = of_three(alloc, &[])?;
    write(&mut disk, at, bytes)?;
    Ok(disk)
}

const WRITES: [(u64, &[u8], &[u8]); 6] = [
    (0, &[7], &[7, 2, 3]),
    (1, &[7, 8], &[1, 7, 8]),
    (2, &[7, 8], &[1, 2, 7, 8]),
    (3, &[7], &[1, 2, 3, 7]),
    (5, &[7], &[1, 2, 3, 0, 0, 7]),
    (5, &[], &[1, 2, 3]),
];

#[test]
fn writes_go_over_and_past_the_end(rt: HostRuntime) -> Result<(), Fail> {
    for (at, bytes, want) in WRITES {
        let disk = written(rt.alloc(), at, bytes)?;
        stands(&rt, &disk, want, 1, 1);
    }
    Ok(())
}

// A read, a write and a sync, and the same again.
fn six_calls<D: Disk>(mut disk: D) -> [bool; 6] {
    let mut into = [0; 2];
    [
        read(&mut disk, 0, &mut into).is_ok(),
        write(&mut disk, 2, &[5]).is_ok(),
        sync(&mut disk).is_ok(),
        read(&mut disk, 0, &mut into).is_ok(),
        write(&mut disk, 3, &[6]).is_ok(),
        sync(&mut disk).is_ok(),
    ]
}

// Which of the six calls succeed if those with these numbers fail.
fn all_but(failing: &[u64]) -> [bool; 6] {
    let mut went = [true; 6];
    for (number, one) in went.iter_mut().enumerate() {
        *one = failing.first() != Some(&(number as u64));
    }
    went
}

// Checks the content after the six calls if those with these numbers fail.
fn six_calls_leave(
    rt: &impl Abort,
    alloc: Global,
    failing: &[u64],
    bytes: &[u8],
    clock: u64,
) -> Result<(), Fail> {
    let mut disk = of_three(alloc, failing)?;
    assert_eq!(rt; six_calls(&mut disk), all_but(failing));
    stands(rt, &disk, bytes, 6, clock);
    assert_eq!(rt; disk.faults(), if failing.is_empty() { 0 } else { 1 });
    Ok(())
}

const FAILING: [(&[u64], &[u8], u64); 7] = [
    (&[0], &[1, 2, 5, 6], 4),
    (&[1], &[1, 2, 3, 6], 3),
    (&[2], &[1, 2, 5, 6], 3),
    (&[3], &[1, 2, 5, 6], 4),
    (&[4], &[1, 2, 5], 3),
    (&[5, 9], &[1, 2, 5, 6], 3),
    (&[], &[1, 2, 5, 6], 4),
];

#[test]
fn the_numbered_calls_fail(rt: HostRuntime) -> Result<(), Fail> {
    for (failing, content, clock) in FAILING {
        six_calls_leave(&rt, rt.alloc(), failing, content, clock)?;
    }
    Ok(())
}

#[test]
fn a_write_that_can_not_grow_fails(rt: HostRuntime) -> Result<(), Fail> {
    let mut disk = of_three(rt.alloc(), &[])?;
    assert_eq!(rt; write(&mut disk, u64::MAX, &[7]), Err(DiskFault));
    stands(&rt, &disk, &[1, 2, 3], 1, 0);
    assert_eq!(rt; disk.faults(), 1);
    assert_eq!(rt; DiskFault.to_string(rt.alloc())?.as_str(), "disk fault");
    Ok(())
}

// A write over the end, a read, a write that fails, a sync, a write past the end, one at the front.
fn busy(alloc: Global) -> Result<MemoryDisk, Fail> {
    let mut disk = of_three(alloc, &[2])?;
    write(&mut disk, 1, &[7, 8, 9])?;
    read(&mut disk, 0, &mut [0; 2])?;
    let _ = write(&mut disk, 0, &[5, 5]);
    sync(&mut disk)?;
    write(&mut disk, 6, &[5, 6])?;
    write(&mut disk, 0, &[4])?;
    Ok(disk)
}

// A call, the bytes of its write that a stop leaves, the content after it, and the clock before the call.
type Stop = (u64, &'static [u8], &'static [u8], u64);

const STOPS: [Stop; 13] = [
    (0, &[], &[1, 2, 3], 0),
    (0, &[7], &[1, 7, 3], 0),
    (0, &[0, 0], &[1, 0, 0], 0),
    (0, &[7, 8, 9], &[1, 7, 8, 9], 0),
    (0, &[0; 9], &[1, 0, 0, 0], 0),
    (1, &[5], &[1, 7, 8, 9], 1),
    (2, &[5, 5], &[1, 7, 8, 9], 1),
    (3, &[5], &[1, 7, 8, 9], 1),
    (4, &[], &[1, 7, 8, 9], 2),
    (4, &[5], &[1, 7, 8, 9, 0, 0, 5], 2),
    (4, &[5, 6], &[1, 7, 8, 9, 0, 0, 5, 6], 2),
    (5, &[], &[1, 7, 8, 9, 0, 0, 5, 6], 3),
    (5, &[4], &[4, 7, 8, 9, 0, 0, 5, 6], 3),
];

// Checks what a stop inside a call leaves.
fn stop_leaves(rt: &impl Abort, alloc: Global, disk: &MemoryDisk, stop: &Stop) -> Result<(), Fail> {
    let (call, left, want, clock) = *stop;
    assert!(rt; call < disk.calls());
    let stopped = disk.stopped(alloc, call, left)?;
    stands(rt, &stopped, want, 0, 0);
    assert_eq!(rt; (stopped.faults(), disk.clock_before(call)), (0, clock));
    Ok(())
}

#[test]
fn a_stop_leaves_what_came_through(rt: HostRuntime) -> Result<(), Fail> {
    let disk = busy(rt.alloc())?;
    assert_eq!(rt; (disk.calls(), disk.faults(), disk.now()), (6, 1, 4));
    for stop in STOPS {
        stop_leaves(&rt, rt.alloc(), &disk, &stop)?;
    }
    Ok(())
}

// A place, the bytes written there, whether the write succeeds, the content after it, and the count of errors.
type Write = (u64, &'static [u8], bool, &'static [u8], u64);

const SURE_WRITES: [Write; 7] = [
    (0, &[7], true, &[7, 2, 3], 0),
    (5, &[8], true, &[7, 2, 3, 0, 0, 8], 0),
    (5, &[9, 9], false, &[7, 2, 3, 0, 0, 8], 1),
    (6, &[], true, &[7, 2, 3, 0, 0, 8], 1),
    (7, &[], false, &[7, 2, 3, 0, 0, 8], 2),
    (u64::MAX, &[9], false, &[7, 2, 3, 0, 0, 8], 3),
    (2, &[4, 4, 4, 4], true, &[7, 2, 4, 4, 4, 4], 3),
];

// Checks the effect of a write.
fn writes(rt: &impl Abort, disk: &mut SureDisk, row: &Write) {
    let (at, bytes, went, want, faults) = *row;
    assert_eq!(rt; write(disk, at, bytes).is_ok(), went);
    assert_eq!(rt; disk.bytes(), want);
    assert_eq!(rt; (disk.faults(), disk.room()), (faults, 6));
}

// Checks a read near the end of the content.
fn reads_the_end(rt: &impl Abort, disk: &mut SureDisk) -> Result<(), Fail> {
    let mut into = [9; 3];
    assert_eq!(rt; read(disk, 4, &mut into)?, 2);
    assert_eq!(rt; into, [4, 4, 9]);
    Ok(())
}

#[test]
fn a_sure_disk_fails_past_its_room(rt: HostRuntime) -> Result<(), Fail> {
    let mut disk = SureDisk::new(rt.alloc(), &[1, 2, 3], 6)?;
    for row in SURE_WRITES {
        writes(&rt, &mut disk, &row);
    }
    sync(&mut disk)?;
    assert_eq!(rt; disk.now(), 5);
    reads_the_end(&rt, &mut disk)?;
    may_be_longer_than_its_room(&rt, rt.alloc())
}

// The initial bytes may be longer than the room.
fn may_be_longer_than_its_room(rt: &impl Abort, alloc: Global) -> Result<(), Fail> {
    let mut small = SureDisk::new(alloc, &[1, 2, 3], 1)?;
    assert_eq!(rt; write(&mut small, 0, &[7]), Ok(()));
    assert_eq!(rt; write(&mut small, 1, &[8]), Err(DiskFault));
    assert_eq!(rt; small.bytes(), [7, 2, 3].as_slice());
    Ok(())
}

#[test]
fn disks_through_their_trait(rt: HostRuntime) -> Result<(), Fail> {
    let sure = SureDisk::new(rt.alloc(), &[1, 2, 3], 4)?;
    assert_eq!(rt; six_calls(sure), [true; 6]);
    assert_eq!(rt; six_calls(NoDisk), [true, false, true, true, false, true]);
    let mut none = NoDisk;
    assert_eq!(rt; (read(&mut none, 0, &mut [0; 2]), none.now()), (Ok(0), 0));
    Ok(())
}
