ghost use Rattle.std.specs.Prelude.{◌^◌, ◌-◌, ◌<◌, None};

use crate::journal::{opens_to, read_on};
use crate::journal_bytes::HEADER;
use batch_positions::Positions;
use disk_model::{Disk, DiskFault, MemoryDisk};
use fact_kinds::{Batch, Identity};
use ldar_journal::{OpenWhy, Opening};
use std::alloc::Global;
use std::test::Fail;
use test_kit::{is, same};

// A disk that is only read. Each read returns at most a few bytes; an endless disk returns zeros past its bytes forever.
#[derive(Drop)]
struct Trickle {
    bytes: Vec<u8>,
    most: usize,
    endless: bool,
    reads: u64,
    last: u64,
}

impl Disk for Trickle {
    ghost content = { λ d. None };

    ghost faults = { λ d. 2 ^ 64 - 1 };

    ghost clock = { λ d. 0 };

    ghost name = { λ d. 0 };

    ghost images = { λ d c. Unit {0} };

    ghost left = { λ d t c. Unit {0} };

    ghost room = { λ d. None };

    ghost counts_now = { λ d t c le image. tt };

    ghost only_now = { λ d c left. tt };

    ghost since_earlier = { λ d s t c le left. tt };

    fn read_at(&mut self, at: u64, into: &mut [u8]) -> Result<usize, DiskFault> {
        self.reads = self.reads.saturating_add(1);
        self.last = self.last.max(at);
        let start = (at as usize).min(self.bytes.len());
        let rest = &self.bytes[start..];
        if rest.is_empty() && self.endless {
            return Ok(self.most.min(into.len()));
        }
        let count = self.most.min(into.len()).min(rest.len());
        into[..count].copy_from_slice(&rest[..count]);
        Ok(count)
    }

    fn write_at(&mut self, _at: u64, _bytes: &[u8]) -> Result<(), DiskFault> {
        Err(DiskFault)
    }

    fn sync(&mut self) -> Result<(), DiskFault> {
        Ok(())
    }

    fn now(&self) -> u64 {
        0
    }
}

// Appends bytes to others.
fn put(bytes: &mut Vec<u8>, more: &[u8]) -> Result<(), Fail> {
    bytes.extend_from_slice(more)?;
    Ok(())
}

// Appends a calibration of instrument 1 at this minute, with 500 ppm.
fn put_fact(bytes: &mut Vec<u8>, minute: u16) -> Result<(), Fail> {
    let [high, low] = minute.to_be_bytes();
    put(bytes, &[7, 0x4d, 0x3d, high, low, 0, 1, 0, 0, 1, 0xf4])
}

// Appends the bytes of a batch of handheld 7: this many calibrations, a minute apart.
fn put_batch(bytes: &mut Vec<u8>, number: u32, facts: u16) -> Result<(), Fail> {
    put(bytes, &[0x42, 0, 7])?;
    put(bytes, &number.to_be_bytes())?;
    put(bytes, &facts.to_be_bytes())?;
    for minute in 0..facts {
        put_fact(bytes, minute)?;
    }
    Ok(())
}

// A frame of batches of handheld 7: the number of the first, the step from each number to the next, and how many there
// are.
type Row = (u32, u32, u32);

// Frames of 1, 2 and 16 batches.
const FRAMES: [Row; 3] = [(1, 1, 1), (2, 1, 2), (4, 1, 16)];

// Appends an open frame to an image; each of its batches has this many facts.
fn put_frame(alloc: Global, image: &mut Vec<u8>, frame: Row, facts: u16) -> Result<(), Fail> {
    let (first, step, count) = frame;
    let mut payload = Vec::new(alloc);
    let mut number = first;
    for _ in 0..count {
        put_batch(&mut payload, number, facts)?;
        number = number.wrapping_add(step);
    }
    let length = (payload.len() % 4_294_967_296) as u32;
    put(image, &[1])?;
    put(image, &length.to_be_bytes())?;
    put(image, &payload)
}

// An image with these frames, whose batches have this many facts each, followed by these bytes.
fn image_of(alloc: Global, frames: &[Row], facts: u16, behind: &[u8]) -> Result<Vec<u8>, Fail> {
    let mut image = Vec::from_slice(alloc, &HEADER)?;
    for frame in frames {
        put_frame(alloc, &mut image, *frame, facts)?;
    }
    image.extend_from_slice(behind)?;
    Ok(image)
}

// Checks the result of opening such an image.
fn frames_open_to(
    alloc: Global,
    frames: &[Row],
    facts: u16,
    behind: &[u8],
    want: Result<usize, OpenWhy>,
) -> Result<(), Fail> {
    let image = image_of(alloc, frames, facts, behind)?;
    opens_to(alloc, &image, &[], want)
}

// This many frames of 16 batches, and one with `last`.
fn rows_of(alloc: Global, frames: u32, last: u32) -> Result<Vec<Row>, Fail> {
    let mut rows = Vec::new(alloc);
    let mut first: u32 = 1;
    for _ in 0..frames {
        rows.push((first, 1, 16))?;
        first = first.wrapping_add(16);
    }
    rows.push((first, 1, last))?;
    Ok(rows)
}

// Checks that a journal of such frames, with this many facts in a batch, opens to this many batches.
fn long_opens(alloc: Global, frames: u32, last: u32, facts: u16, want: usize) -> Result<(), Fail> {
    let rows = rows_of(alloc, frames, last)?;
    frames_open_to(alloc, &rows, facts, &[0], Ok(want))
}

#[test]
fn a_long_journal_opens(rt: HostRuntime) -> Result<(), Fail> {
    // Frames of 16 batches, and one of 6 or 3: 70 batches in over 64 KiB; with 512 facts each, in over 400 KiB; and 243 of those in
    // over 1 MiB.
    long_opens(rt.alloc(), 4, 6, 90, 70)?;
    long_opens(rt.alloc(), 4, 6, 512, 70)?;
    long_opens(rt.alloc(), 15, 3, 512, 243)
}

// Begins to open a journal.
fn begun(alloc: Global, image: &[u8]) -> Result<Opening<MemoryDisk>, Fail> {
    let disk = MemoryDisk::new(alloc, image, &[])?;
    match Opening::begin(alloc, disk) {
        Ok(opening) => Ok(opening),
        Err(_) => Err(Fail::from("a journal")),
    }
}

// Checks that a frame of this many batches is next.
fn comes(
    alloc: Global,
    opening: &mut Opening<MemoryDisk>,
    batches: &mut Vec<Batch>,
    want: usize,
) -> Result<(), Fail> {
    let found = opening.next_frame(alloc, batches);
    same("whether a frame comes", &found, &Ok(true))?;
    same("the batches of a frame", &batches.len(), &want)
}

// The positions of the batches, once the closed gate is reached.
fn positions_of(
    alloc: Global,
    mut opening: Opening<MemoryDisk>,
    batches: &mut Vec<Batch>,
) -> Result<Positions, Fail> {
    let Ok(false) = opening.next_frame(alloc, batches) else {
        return Err(Fail::from("a closed gate"));
    };
    let (_, positions) = opening.finish();
    Ok(positions)
}

// Checks that the batch of handheld 7 with this number is at the position of its number.
fn stands(positions: &Positions, number: u32) -> Result<(), Fail> {
    let identity = Identity {
        handheld: 7,
        number,
    };
    let found = positions.position(identity);
    same("the position of a batch", &found, &Some(number))
}

#[test]
fn frames_come_one_by_one(rt: HostRuntime) -> Result<(), Fail> {
    let image = image_of(rt.alloc(), &FRAMES, 3, &[0])?;
    let mut opening = begun(rt.alloc(), &image)?;
    let mut batches = Vec::new(rt.alloc());
    comes(rt.alloc(), &mut opening, &mut batches, 1)?;
    comes(rt.alloc(), &mut opening, &mut batches, 2)?;
    comes(rt.alloc(), &mut opening, &mut batches, 16)?;
    let positions = positions_of(rt.alloc(), opening, &mut batches)?;
    stands(&positions, 1)?;
    stands(&positions, 2)?;
    stands(&positions, 3)?;
    stands(&positions, 19)?;
    Ok(())
}

// Reads a journal from a disk that returns few bytes a read. Returns the disk, and the result of opening it.
fn trickled(
    alloc: Global,
    bytes: Vec<u8>,
    most: usize,
    endless: bool,
) -> (Trickle, Result<usize, OpenWhy>) {
    let disk = Trickle {
        bytes,
        most,
        endless,
        reads: 0,
        last: 0,
    };
    match Opening::begin(alloc, disk) {
        Ok(mut opening) => {
            let count = read_on(alloc, &mut opening);
            (opening.into_disk(), count)
        }
        Err(error) => (error.disk, Err(error.why)),
    }
}

// Checks that these frames, of batches of 40 facts, are read if a read returns at most this many bytes, whether or not bytes
// follow without end.
fn trickle_opens(alloc: Global, most: usize, endless: bool) -> Result<(), Fail>
    requires some { 0 < most }
{
    let image = image_of(alloc, &FRAMES, 40, &[0])?;
    let length = image.len() as u64;
    let (disk, opened) = trickled(alloc, image, most, endless);
    same("what opens", &opened, &Ok(19))?;
    // No read begins after the closed gate, and this many reads are enough for all.
    is(disk.last < length, "where the last read begins")?;
    let enough = (length / most as u64).saturating_add(20);
    is(disk.reads <= enough, "the number of reads")
}

#[test]
fn a_disk_may_give_few_bytes_and_never_end(rt: HostRuntime) -> Result<(), Fail> {
    trickle_opens(rt.alloc(), 1, false)?;
    trickle_opens(rt.alloc(), 7, true)?;
    trickle_opens(rt.alloc(), 1_000, true)?;
    trickle_opens(rt.alloc(), 1 << 20, true)
}

#[test]
fn zeros_for_ever_are_no_journal(rt: HostRuntime) -> Result<(), Fail> {
    let (disk, opened) = trickled(rt.alloc(), Vec::new(rt.alloc()), 1 << 20, true);
    same("what opens", &opened, &Err(OpenWhy::NotAJournal))?;
    same("the reads", &disk.reads, &1)
}

// The bytes after two good frames of 25 and 45 bytes, which end at 86, and whether the journal opens.
const BEHIND: [(&[u8], bool); 9] = [
    (&[0], true),
    (&[7], true),
    (&[], false),
    (&[1], false),
    (&[1, 0, 0, 0], false),
    (&[1, 0, 0, 0, 0, 0], false),
    (&[1, 0, 2, 0xe0, 0x91, 0], false),
    (&[1, 0, 0, 0, 20, 0x42, 0, 7], false),
    (&[1, 0, 0, 0, 2, 0x42, 0, 0], false),
];

#[test]
fn each_bad_frame_is_told_with_its_place(rt: HostRuntime) -> Result<(), Fail> {
    for (behind, good) in BEHIND {
        let want = if good {
            Ok(3)
        } else {
            Err(OpenWhy::Damaged { at: 86 })
        };
        frames_open_to(rt.alloc(), &[(1, 1, 1), (2, 1, 2)], 1, behind, want)?;
    }
    Ok(())
}

// Checks that the frame at this place is the first bad one.
fn is_bad(alloc: Global, frames: &[Row], at: u64) -> Result<(), Fail> {
    frames_open_to(alloc, frames, 1, &[], Err(OpenWhy::Damaged { at }))
}

#[test]
fn frames_that_may_not_be_kept_are_bad(rt: HostRuntime) -> Result<(), Fail> {
    // A frame of 17 batches; a number that is repeated in a later frame, and in its own; and the place of the bad frame.
    is_bad(rt.alloc(), &[(1, 1, 17)], 16)?;
    is_bad(rt.alloc(), &[(1, 1, 1), (0, 1, 2)], 41)?;
    is_bad(rt.alloc(), &[(5, 0, 2)], 16)?;
    is_bad(rt.alloc(), &[], 16)?;
    for length in 0..16 {
        let (front, _) = HEADER.split_at(length);
        opens_to(rt.alloc(), front, &[], Err(OpenWhy::NotAJournal))?;
    }
    Ok(())
}
