ghost use Rattle.std.specs.Prelude.{◌≡◌, ◌<◌, ◌≤◌};
ghost use Rattle.office_interface.specs.Asking.{HasRule};

use disk_model::NoDisk;
use ldar_law::{Reply, Request, What};
use ldar_ports::{ListSource, StampedSink};
use ldar_session::{Ended, dock};
use office_book::Office;
use std::alloc::{AllocError, Global};
use std::test::Fail;
use test_kit::{is, pieces_of};

mod sessions;

// The number of calls that are noted.
const NOTED: usize = 8;

// An office that keeps nothing, and notes the number of requests in each call. The reply to a batch depends on its
// number: 0 is a disk error, 1 breaks rule 1, and any other is kept at that position.
#[derive(Drop)]
struct Notebook {
    none: NoDisk,
    calls: [usize; NOTED],
    made: usize,
}

impl Notebook {
    fn new() -> Notebook {
        Notebook {
            none: NoDisk,
            calls: [0; NOTED],
            made: 0,
        }
    }

    fn note(&mut self, asked: usize) {
        if self.made < NOTED {
            self.calls[self.made] = asked;
            self.made += 1;
        }
    }
}

fn reply_to(request: &Request) -> Reply
    ensures { HasRule result }
{
    let Request::Sync(batch) = request else {
        return Reply::NoSuch(What::Unit);
    };
    match batch.number {
        0 => Reply::Fault,
        1 => Reply::Denied { fact: 1, rule: 1 },
        number => Reply::Receipt {
            handheld: batch.handheld,
            number,
            position: number,
        },
    }
}

impl Office for Notebook {
    type Beside = NoDisk;

    ghost led = { λ _ calls _. Unit {0} };

    ghost beside_of = { λ office. office.none };

    fn ask(&mut self, _alloc: Global, request: &Request) -> Reply {
        self.note(1);
        reply_to(request)
    }

    fn ask_group(
        &mut self,
        _alloc: Global,
        requests: &[Request],
        replies: &mut Vec<Reply>,
    ) -> Result<(), AllocError> {
        let before = replies.len();
        for request in requests {
            match replies.push(reply_to(request)) {
                Ok(()) => {}
                Err(_) => {
                    replies.truncate(before);
                    return Err(AllocError);
                }
            }
        }
        self.note(requests.len());
        Ok(())
    }

    fn beside(&self) -> &NoDisk {
        &self.none
    }

    ghost stays = { λ _. tt };

    ghost joins = { λ _ _ _ first second _ _. tt };
}

// The calibration of an instrument on 2024-02-20, as the batch of a handheld with this number.
fn batch(handheld: u16, number: u8) -> [u8; 20] {
    let [high, low] = handheld.to_be_bytes();
    [
        0x42, high, low, 0, 0, 0, number, 0, 1, 7, 0x4d, 0x3d, 2, 0x58, 0, 1, 0, 0, 1, 0xf4,
    ]
}

// Batches one after the other, from their handhelds and numbers.
fn input(alloc: Global, batches: &[(u16, u8)]) -> Result<Vec<u8>, AllocError> {
    let mut bytes = Vec::new(alloc);
    for (handheld, number) in batches {
        bytes.extend_from_slice(&batch(*handheld, *number))?;
    }
    Ok(bytes)
}

// The size of the pieces in which the input arrives, and the calls of the source and of the sink that fail.
#[derive(Clone, Copy)]
struct Manner {
    piece: usize,
    read: u64,
    write: u64,
}

// A call that is never made.
const NEVER: u64 = u64::MAX;

// Pieces of this size, without errors.
fn by(piece: usize) -> Manner {
    Manner {
        piece,
        read: NEVER,
        write: NEVER,
    }
}

// The source and the sink of a connection.
#[derive(Drop)]
struct Streams {
    source: ListSource,
    sink: StampedSink,
}

// The input of a connection.
fn source_of(alloc: Global, bytes: &[u8], manner: Manner) -> Result<ListSource, AllocError> {
    let pieces = pieces_of(alloc, bytes, manner.piece)?;
    ListSource::new(alloc, &pieces, &[manner.read])
}

// The streams of a connection with this input.
fn streams_of(alloc: Global, bytes: &[u8], manner: Manner) -> Result<Streams, AllocError> {
    Ok(Streams {
        source: source_of(alloc, bytes, manner)?,
        sink: StampedSink::new(alloc, &[manner.write])?,
    })
}

// Whether exactly these bytes were written.
fn was_put(sink: &StampedSink, bytes: &[u8]) -> bool {
    let mut rest = bytes;
    for piece in sink.pieces() {
        let Some(behind) = rest.strip_prefix(piece.bytes()) else {
            return false;
        };
        rest = behind;
    }
    rest.is_empty()
}

// Checks how a connection with this input ends, and what it writes.
fn ends(alloc: Global, manner: Manner, bytes: &[u8], want: Ended, said: &str) -> Result<(), Fail> {
    let mut streams = streams_of(alloc, bytes, manner)?;
    let ended = dock(
        alloc,
        &mut Notebook::new(),
        &mut streams.source,
        &mut streams.sink,
    );
    is(
        ended == want && was_put(&streams.sink, said.as_bytes()),
        said,
    )
}

const OF_ALL_SORTS: &str =
    "receipt 7 12 12\ndisk fault\ndenied 1 1 60.486a(e)(1)\nreceipt 65535 255 255\n";

#[test]
fn pieces_of_any_size_give_the_same_bytes(rt: HostRuntime) -> Result<(), Fail> {
    let bytes = input(rt.alloc(), &[(7, 12), (7, 0), (0, 1), (65_535, 255)])?;
    for size in 1..=81 {
        ends(rt.alloc(), by(size), &bytes, Ended::Done, OF_ALL_SORTS)?;
    }
    Ok(())
}

// Checks how many batches are in each call, if the batches arrive in pieces of this size.
fn asks(
    alloc: Global,
    batches: &[(u16, u8)],
    size: usize,
    calls: [usize; NOTED],
) -> Result<(), Fail> {
    let bytes = input(alloc, batches)?;
    let mut streams = streams_of(alloc, &bytes, by(size))?;
    let mut office = Notebook::new();
    let ended = dock(alloc, &mut office, &mut streams.source, &mut streams.sink);
    is(
        ended == Ended::Done && office.calls == calls && streams.sink.pieces().len() == office.made,
        "the calls",
    )
}

const OF_SEVEN: [(u16, u8); 17] = [(7, 2); 17];

const MIXED: [(u16, u8); 5] = [(7, 2), (8, 2), (0, 2), (0, 3), (7, 3)];

#[test]
fn batches_in_hand_are_asked_together(rt: HostRuntime) -> Result<(), Fail> {
    asks(rt.alloc(), &OF_SEVEN, 340, [16, 1, 0, 0, 0, 0, 0, 0])?;
    asks(rt.alloc(), &OF_SEVEN, 339, [16, 1, 0, 0, 0, 0, 0, 0])?;
    asks(rt.alloc(), &OF_SEVEN, 110, [5, 6, 5, 1, 0, 0, 0, 0])?;
    asks(rt.alloc(), &MIXED, 100, [2, 1, 1, 1, 0, 0, 0, 0])?;
    asks(rt.alloc(), &MIXED, 20, [1, 1, 1, 1, 1, 0, 0, 0])
}

// An input, how the connection ends, and what it writes.
const INPUTS: [(&[u8], Ended, &str); 6] = [
    (b"", Ended::Done, ""),
    (
        b"B\0\x07\0\0\0\x0c\0\x01\x07M=\x02X\0\x01\0\0\x01",
        Ended::CutShort { got: 19 },
        "",
    ),
    // A day that does not exist.
    (
        b"B\0\x07\0\0\0\x0c\0\x01\x0766\x02X\0\x01\0\0\x01\xf4",
        Ended::Refused { at: 11 },
        "",
    ),
    (b"C", Ended::Refused { at: 0 }, ""),
    (
        b"B\0\x07\0\0\0\x0c\0\x01\x07M=\x02X\0\x01\0\0\x01\xf4C",
        Ended::Refused { at: 20 },
        "receipt 7 12 12\n",
    ),
    (
        b"B\0\x07\0\0\0\x0c\0\x01\x07M=\x02X\0\x01\0\0\x01\xf4B",
        Ended::CutShort { got: 1 },
        "receipt 7 12 12\n",
    ),
];

#[test]
fn it_ends_where_the_input_is_cut_or_goes_wrong(rt: HostRuntime) -> Result<(), Fail> {
    for (bytes, ended, said) in INPUTS {
        ends(rt.alloc(), by(20), bytes, ended, said)?;
    }
    Ok(())
}

const FIRST: &str = "receipt 7 12 12\n";

const ALL: &str = "receipt 7 12 12\ndisk fault\nreceipt 7 13 13\n";

// The calls of the source and of the sink that fail, how the connection ends, and what it writes.
const FAULTS: [(u64, u64, Ended, &str); 6] = [
    (0, NEVER, Ended::ReadFault, ""),
    (1, NEVER, Ended::ReadFault, FIRST),
    (3, NEVER, Ended::ReadFault, ALL),
    (NEVER, 0, Ended::WriteFault, ""),
    (NEVER, 1, Ended::WriteFault, FIRST),
    (NEVER, 3, Ended::Done, ALL),
];

#[test]
fn a_fault_of_the_streams_ends_it(rt: HostRuntime) -> Result<(), Fail> {
    let bytes = input(rt.alloc(), &[(7, 12), (7, 0), (7, 13)])?;
    for (read, write, ended, said) in FAULTS {
        let manner = Manner {
            piece: 20,
            read,
            write,
        };
        ends(rt.alloc(), manner, &bytes, ended, said)?;
    }
    Ok(())
}
