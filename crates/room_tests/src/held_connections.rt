ghost use Rattle.std.specs.Prelude.{None};

use crate::offices::{EMPTY, calibration, opened};
use crate::services::{EIGHT, SEVEN, serve_to, source_of};
use disk_model::{Disk, MemoryDisk};
use ldar_law::Reply;
use ldar_ports::{
    Ended, Front, FrontFault, ListSource, Sink, SinkFault, Source, SourceFault, StampedSink,
};
use office_book::{Book, Office};
use std::alloc::{AllocError, Global};
use std::sync::Wait;
use std::sync::atomic::{AtomicBool, Ordering};
use std::test::Fail;
use std::thread::Threads;
use test_kit::is;

// How often a source looks whether the other connection was answered, before it gives up.
const TURNS: u32 = 1_000_000_000;

// The input of a connection, a request in two pieces. The second may be withheld until another connection was answered.
#[derive(Drop)]
struct HeldSource<'a> {
    source: ListSource,
    answered: &'a AtomicBool,
    waits: bool,
    faults: u64,
}

impl<'a> HeldSource<'a> {
    // Waits until the other connection was answered, for so many turns at most. Returns whether it was.
    fn is_answered(&self) -> bool {
        for _ in 0..TURNS {
            if self.answered.load(Ordering::SeqCst) {
                return true;
            }
        }
        false
    }
}

impl<'a> Source for HeldSource<'a> {
    ghost left = { λ s. None };

    ghost faults = { λ s. s.faults };

    fn take(&mut self, into: &mut [u8]) -> Result<usize, SourceFault> {
        let held = self.waits && self.source.calls() > 0;
        if held && !self.is_answered() {
            self.faults = self.faults.saturating_add(1);
            return Err(SourceFault);
        }
        match self.source.take(into) {
            Ok(n) => Ok(n),
            Err(SourceFault) => {
                self.faults = self.faults.saturating_add(1);
                Err(SourceFault)
            }
        }
    }
}

// The output of a connection, which reports that it was answered.
#[derive(Drop)]
struct ReportingSink<'a> {
    sink: StampedSink,
    answered: &'a AtomicBool,
}

impl<'a> Sink for ReportingSink<'a> {
    ghost pieces = { λ k. None };

    ghost faults = { λ k. k.sink.calls.faults };

    fn put<D: Disk>(&mut self, beside: &D, bytes: &[u8]) -> Result<usize, SinkFault> {
        let put = self.sink.put(beside, bytes);
        self.answered.store(true, Ordering::SeqCst);
        put
    }
}

// A front of one connection. Once that is handed back, it has what was written and how the connection ended.
#[derive(Drop)]
struct HeldFront<'a> {
    next: Option<(HeldSource<'a>, ReportingSink<'a>)>,
    done: Option<(StampedSink, Ended)>,
}

impl<'a> HeldFront<'a> {
    // A front whose connection sends this request. Its last byte may be withheld.
    fn new(
        alloc: Global,
        request: &[u8],
        waits: bool,
        answered: &'a AtomicBool,
    ) -> Result<HeldFront<'a>, AllocError> {
        let source = HeldSource {
            source: source_of(alloc, request, request.len().saturating_sub(1))?,
            answered,
            waits,
            faults: 0,
        };
        let sink = ReportingSink {
            sink: StampedSink::new(alloc, &[])?,
            answered,
        };
        Ok(HeldFront {
            next: Some((source, sink)),
            done: None,
        })
    }

    // Checks that the connection was answered, and that the answer ends so.
    fn has_answer(&self, alloc: Global, answer: &str) -> Result<(), Fail> {
        let Some((sink, ended)) = &self.done else {
            return Err(Fail::from("no connection was handed back"));
        };
        is(*ended == Ended::Done, "an end")?;
        is(sink.bytes(alloc)?.ends_with(answer.as_bytes()), answer)
    }
}

impl<'a> Front for HeldFront<'a> {
    type In = HeldSource<'a>;

    type Out = ReportingSink<'a>;

    ghost left = { λ f. None };

    ghost done = { λ f. None };

    ghost faults = { λ f. 0 };

    ghost awaits = { λ f. Unit {0} };

    fn accept(&mut self) -> Result<Option<(HeldSource<'a>, ReportingSink<'a>)>, FrontFault> {
        Ok(self.next.take())
    }

    fn finish(&mut self, _source: HeldSource<'a>, sink: ReportingSink<'a>, ended: Ended) {
        self.done = Some((sink.sink, ended));
    }
}

// Checks that a service ended well, and the answer of each front.
fn have_answers(
    alloc: Global,
    status: u8,
    fronts: &[HeldFront<'_>; 2],
    answers: (&str, &str),
) -> Result<(), Fail> {
    is(status == 0, "the status")?;
    fronts[0].has_answer(alloc, answers.0)?;
    fronts[1].has_answer(alloc, answers.1)
}

// Serves two fronts with a request each, of which the first or the second waits for the other's answer.
fn serve_both<R: Threads + Wait + Sync>(
    rt: &R,
    alloc: Global,
    first_waits: bool,
    answers: (&str, &str),
    disk: &mut MemoryDisk,
) -> Result<(), Fail> {
    let answered = AtomicBool::new(false);
    let first = HeldFront::new(alloc, SEVEN, first_waits, &answered)?;
    let second = HeldFront::new(alloc, EIGHT, !first_waits, &answered)?;
    let mut fronts = [first, second];
    let status = serve_to(rt, alloc, "serve 8080 2", &mut fronts, disk);
    have_answers(alloc, status, &fronts, answers)
}

// Checks that a batch, which is sent again, is held at this position.
fn holds_at(
    alloc: Global,
    book: &mut Book<MemoryDisk>,
    handheld: u16,
    number: u32,
    want: u32,
) -> Result<(), Fail> {
    let reply = book.ask(alloc, &calibration(alloc, handheld, number, 500)?);
    is(
        matches!(reply, Reply::Receipt { position, .. } if position == want),
        "a position",
    )
}

// Checks that the office of a journal holds two batches, those of handhelds 7 and 8 at these positions.
fn holds_both(alloc: Global, journal: &[u8], positions: (u32, u32)) -> Result<(), Fail> {
    let mut book = opened(alloc, journal)?;
    let (batches, _) = book.counts();
    is(batches == 2, "two batches")?;
    holds_at(alloc, &mut book, 7, 12, positions.0)?;
    holds_at(alloc, &mut book, 8, 3, positions.1)
}

// Checks that both connections are answered though one waits for the other, and what the office holds afterwards.
fn one_waits<R: Threads + Wait + Sync>(
    rt: &R,
    alloc: Global,
    first_waits: bool,
    answers: (&str, &str),
    positions: (u32, u32),
) -> Result<(), Fail> {
    let mut disk = MemoryDisk::new(alloc, &EMPTY, &[])?;
    serve_both(rt, alloc, first_waits, answers, &mut disk)?;
    holds_both(alloc, disk.bytes(), positions)
}

#[test]
fn a_connection_is_answered_while_another_waits(rt: HostRuntime) -> Result<(), Fail> {
    let seven_last = ("receipt 7 12 2\n", "receipt 8 3 1\n");
    one_waits(&rt, rt.alloc(), true, seven_last, (2, 1))?;
    let eight_last = ("receipt 7 12 1\n", "receipt 8 3 2\n");
    one_waits(&rt, rt.alloc(), false, eight_last, (1, 2))
}
