use disk_model::{Disk, Memory, MemoryDisk};
use ldar_ports::{ListSource, StampedSink};
use office_commands::run;
use report_filing::MapFiling;
use std::alloc::Global;
use std::test::Fail;
use test_kit::{is, pieces_of, words_of};

// Handheld 7, batch 12: one calibration on 2024-02-20 at 10:00, instrument 1, 500 ppm.
pub const BATCH: &[u8] = b"\x42\0\x07\0\0\0\x0c\0\x01\x07\x4d\x3d\x02\x58\0\x01\0\0\x01\xf4";

// The same handheld and number with 501 ppm, and the same fact as batch 13.
pub const OTHER: &[u8] = b"\x42\0\x07\0\0\0\x0c\0\x01\x07\x4d\x3d\x02\x58\0\x01\0\0\x01\xf5";

pub const NEXT: &[u8] = b"\x42\0\x07\0\0\0\x0d\0\x01\x07\x4d\x3d\x02\x58\0\x01\0\0\x01\xf4";

// Batch 12 cut short, twice, and with a byte after it that begins no batch.
pub const CUT: &[u8] = b"\x42\0\x07\0\0\0\x0c\0\x01\x07\x4d\x3d\x02\x58\0\x01\0\0\x01";

pub const TWICE: &[u8] = b"\x42\0\x07\0\0\0\x0c\0\x01\x07\x4d\x3d\x02\x58\0\x01\0\0\x01\xf4\
    \x42\0\x07\0\0\0\x0c\0\x01\x07\x4d\x3d\x02\x58\0\x01\0\0\x01\xf4";

pub const WRONG: &[u8] = b"\x42\0\x07\0\0\0\x0c\0\x01\x07\x4d\x3d\x02\x58\0\x01\0\0\x01\xf4\x43";

// Handheld 258, batch 16,909,060: one fact of each kind.
pub const EVERY_KIND: &[u8] = b"\x42\x01\x02\x01\x02\x03\x04\0\x0f\
    \x01\x4d\x3d\x02\x58\x02\x01ALKY-2\0\0\0\0\0\0\
    \x02\x4d\x3d\x02\x58\x01\x03\x02\x02\x01\0\x02\x02\x0c\x03\
    \x03\x4d\x3d\x02\x58\x01\x03\x01\x03\0\x02\
    \x04\x4d\x3d\x02\x58\x01\x03\
    \x05\x4d\x3d\x02\x58\x02\x03\x4c\xe2\
    \x06\x4d\x3d\x02\x58\x02\x01\x02\
    \x07\x4d\x3d\x02\x58\0\x05\0\0\x27\x10\
    \x08\x4d\x3d\x02\x58\0\x05\0\0\x01\xf4\0\0\x01\xf5\0\0\x01\xf6\0\0\x01\xf7\
    \x09\x4d\x3d\x02\x58\0\x05\0\0\x01\xf8\0\0\x01\xf9\0\0\x01\xfa\0\0\x01\xfb\
    \x0a\x4d\x3d\x02\x58\x01\x03\0\x05\0\x06\x02\0\x01\x86\xa0\0\0\0\x03\
    \x0b\x4d\x3d\x02\x58\x01\x03\x01\
    \x0c\x4d\x3d\x02\x58\x01\x03\x01\
    \x0d\x4d\x3d\x02\x58\x01\x03\x03\0\x09\x4d\x5a\
    \x0e\x4d\x3d\x02\x58\x01\x03\
    \x0f\x4d\x3d\x02\x58\x01\x03\x02\x01";

// The header of a journal and a closed gate.
pub const EMPTY: &[u8] = b"LDARJNL1\0\0\0\0\0\0\0\0\0";

// A journal with batch 12; with another first byte of the batch; without the gate; and with bytes after it.
pub const ONE: &[u8] = b"LDARJNL1\0\0\0\0\0\0\0\0\x01\0\0\0\x14\
    \x42\0\x07\0\0\0\x0c\0\x01\x07\x4d\x3d\x02\x58\0\x01\0\0\x01\xf4\0";

pub const DAMAGED: &[u8] = b"LDARJNL1\0\0\0\0\0\0\0\0\x01\0\0\0\x14\
    \x43\0\x07\0\0\0\x0c\0\x01\x07\x4d\x3d\x02\x58\0\x01\0\0\x01\xf4\0";

pub const WITHOUT_GATE: &[u8] = b"LDARJNL1\0\0\0\0\0\0\0\0\x01\0\0\0\x14\
    \x42\0\x07\0\0\0\x0c\0\x01\x07\x4d\x3d\x02\x58\0\x01\0\0\x01\xf4";

pub const FOLLOWED: &[u8] = b"LDARJNL1\0\0\0\0\0\0\0\0\x01\0\0\0\x14\
    \x42\0\x07\0\0\0\x0c\0\x01\x07\x4d\x3d\x02\x58\0\x01\0\0\x01\xf4\0what a crash left";

// Handheld 0, batch 2: process unit 2 from 2024-01-15, with valve 30 in gas service.
pub const UNIT: &[u8] = b"\x42\0\0\0\0\0\x02\0\x02\x01\x4d\x19\0\0\x02\0COKER\0\0\0\0\0\0\0\
    \x02\x4d\x19\0\0\0\x1e\x02\x01\0\0\x01\0\0\x01";

// The number of a call that is never made.
pub const NEVER: u64 = u64::MAX;

// The size of the pieces of a run's input, and the calls of its input, its output and its notes that fail.
#[derive(Clone, Copy)]
pub struct Manner {
    pub piece: usize,
    pub take: u64,
    pub put: u64,
    pub note: u64,
}

// One piece and no errors.
pub const CALM: Manner = Manner {
    piece: usize::MAX,
    take: NEVER,
    put: NEVER,
    note: NEVER,
};

// Pieces of this many bytes and no errors.
pub fn in_pieces(piece: usize) -> Manner {
    Manner {
        piece,
        take: NEVER,
        put: NEVER,
        note: NEVER,
    }
}

// One piece, and these calls fail.
pub fn failing(take: u64, put: u64, note: u64) -> Manner {
    Manner {
        piece: usize::MAX,
        take,
        put,
        note,
    }
}

// The length of a batch with one calibration.
pub const OF_A_BATCH: usize = 20;

// A run: its words, separated by single blanks; its input; its status, its output, and its notes.
pub type Row<'a> = (&'a str, &'a [u8], u8, &'a str, &'a str);

// The input, the output and the notes of a run.
#[derive(Drop)]
pub struct Streams {
    source: ListSource,
    output: StampedSink,
    notes: StampedSink,
}

impl Streams {
    // The output.
    pub fn output(&self) -> &StampedSink {
        &self.output
    }
}

// The input of a run.
fn source_of(alloc: Global, input: &[u8], manner: Manner) -> Result<ListSource, Memory> {
    let pieces = pieces_of(alloc, input, manner.piece)?;
    ListSource::new(alloc, &pieces, &[manner.take])
}

// The streams of a run with this input.
pub fn streams_of(alloc: Global, input: &[u8], manner: Manner) -> Result<Streams, Memory> {
    Ok(Streams {
        source: source_of(alloc, input, manner)?,
        output: StampedSink::new(alloc, &[manner.put])?,
        notes: StampedSink::new(alloc, &[manner.note])?,
    })
}

// The status of a run with these words. All tests of runs use it.
pub fn ran<D: Disk>(
    alloc: Global,
    disk: &mut D,
    streams: &mut Streams,
    line: &str,
) -> Result<u8, Memory> {
    let words = words_of(alloc, line)?;
    Ok(run(
        alloc,
        &words,
        &mut streams.source,
        &mut streams.output,
        &mut streams.notes,
        disk,
        &mut MapFiling::new(alloc),
    ))
}

// Whether exactly this text was written.
pub fn was_put(sink: &StampedSink, text: &str) -> bool {
    let mut rest = text.as_bytes();
    for piece in sink.pieces() {
        let Some(behind) = rest.strip_prefix(piece.bytes()) else {
            return false;
        };
        rest = behind;
    }
    rest.is_empty()
}

// Whether a run with this status wrote these two texts.
pub fn has_told(streams: &Streams, got: (u8, u8), output: &str, noted: &str) -> bool {
    got.0 == got.1 && was_put(&streams.output, output) && was_put(&streams.notes, noted)
}

// Checks the result of a run on a disk. Returns how often it read the input.
pub fn ends<D: Disk>(alloc: Global, disk: &mut D, manner: Manner, row: &Row) -> Result<u64, Fail> {
    let mut streams = streams_of(alloc, row.1, manner)?;
    let got = ran(alloc, disk, &mut streams, row.0)?;
    is(has_told(&streams, (got, row.2), row.3, row.4), row.0)?;
    Ok(streams.source.calls())
}

// Checks that a run with this input succeeds and writes this output.
pub fn says<D: Disk>(
    alloc: Global,
    disk: &mut D,
    line: &str,
    input: &[u8],
    output: &str,
) -> Result<(), Fail> {
    ends(alloc, disk, CALM, &(line, input, 0, output, ""))?;
    Ok(())
}

// Checks the result of a run on a disk with these bytes, and the length of the disk after it.
pub fn ends_on(alloc: Global, bytes: &[u8], row: &Row, length: usize) -> Result<(), Fail> {
    let mut disk = MemoryDisk::new(alloc, bytes, &[])?;
    ends(alloc, &mut disk, CALM, row)?;
    is(disk.bytes().len() == length, row.0)
}
