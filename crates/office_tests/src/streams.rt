use disk_model::{Disk, Memory, MemoryDisk};
use ldar_ports::{
    ListSource, Sink, SinkFault, Source, SourceFault, StampedPiece, StampedSink, Window, put_all,
};
use std::alloc::Global;
use std::process::Abort;
use std::test::Fail;

// A source of these pieces.
fn source_of(alloc: Global, pieces: &[&[u8]], failing: &[u64]) -> Result<ListSource, Memory> {
    let mut copies = Vec::new(alloc);
    for piece in pieces {
        copies.push(Vec::from_slice(alloc, piece)?)?;
    }
    ListSource::new(alloc, &copies, failing)
}

// The pieces `1 2 3`, an empty one, and `4`.
const PIECES: [&[u8]; 3] = [&[1, 2, 3], &[], &[4]];

// A disk whose clock is 2.
fn disk(alloc: Global) -> Result<MemoryDisk, Fail> {
    let mut disk = MemoryDisk::new(alloc, &[], &[])?;
    disk.write_at(0, &[0])?;
    disk.sync()?;
    Ok(disk)
}

fn next<S: Source>(mut source: S, into: &mut [u8]) -> Result<usize, SourceFault> {
    source.take(into)
}

// The result of a call, and the two bytes after it.
type Taken = (Result<usize, SourceFault>, [u8; 2]);

// The result of the next call.
fn taken(source: &mut ListSource, into: &mut [u8; 2]) -> Taken {
    let result = next(source, into);
    (result, *into)
}

// Checks the results of the next calls.
fn takes(rt: &impl Abort, source: &mut ListSource, wants: &[Taken]) {
    let mut into = [0; 2];
    for want in wants {
        assert_eq!(rt; taken(source, &mut into), *want);
    }
}

#[test]
fn a_piece_is_taken_in_order_and_an_empty_one_passed_over(rt: HostRuntime) -> Result<(), Fail> {
    let mut source = source_of(rt.alloc(), &PIECES, &[2])?;
    let wants = [
        (Ok(2), [1, 2]),
        (Ok(1), [3, 2]),
        (Err(SourceFault), [3, 2]),
        (Ok(1), [4, 2]),
        (Ok(0), [4, 2]),
    ];
    takes(&rt, &mut source, &wants);
    assert_eq!(rt; (source.calls(), source.faults()), (5, 1));
    assert!(rt; source.bytes_left(rt.alloc())?.is_empty());
    Ok(())
}

// Writes bytes with the clock of a disk.
fn put<K: Sink>(sink: &mut K, disk: &MemoryDisk, bytes: &[u8]) -> Result<(), SinkFault> {
    put_all(sink, disk, bytes)
}

// Checks the bytes and the stamp of a piece.
fn is_stamped(rt: &impl Abort, piece: &StampedPiece, bytes: &[u8], stamp: u64) {
    assert_eq!(rt; piece.bytes(), bytes);
    assert_eq!(rt; piece.stamp(), stamp);
}

// Checks that `5 6` and `8` were written with the stamps 2 and 3, and that one call failed.
fn has_two_pieces(rt: &impl Abort, alloc: Global, sink: &StampedSink) -> Result<(), Fail> {
    assert_eq!(rt; (sink.calls(), sink.faults()), (3, 1));
    assert_eq!(rt; sink.bytes(alloc)?.as_slice(), [5, 6, 8].as_slice());
    let [first, second] = sink.pieces() else {
        return Err(Fail::from("two pieces"));
    };
    is_stamped(rt, first, &[5, 6], 2);
    is_stamped(rt, second, &[8], 3);
    Ok(())
}

#[test]
fn each_piece_has_the_clock_of_its_disk(rt: HostRuntime) -> Result<(), Fail> {
    let mut disk = disk(rt.alloc())?;
    let mut sink = StampedSink::new(rt.alloc(), &[1])?;
    assert_eq!(rt; put(&mut sink, &disk, &[5, 6]), Ok(()));
    assert_eq!(rt; put(&mut sink, &disk, &[]), Ok(()));
    assert_eq!(rt; put(&mut sink, &disk, &[7]), Err(SinkFault));
    disk.sync()?;
    assert_eq!(rt; put(&mut &mut sink, &disk, &[8]), Ok(()));
    has_two_pieces(&rt, rt.alloc(), &sink)
}

// A source of pieces, each with one byte this many times.
fn source_of_many(alloc: Global, pieces: &[(u8, usize)]) -> Result<ListSource, Memory> {
    let mut copies = Vec::new(alloc);
    for (byte, count) in pieces {
        copies.push(vec![in alloc; *byte; *count]?)?;
    }
    ListSource::new(alloc, &copies, &[])
}

// Checks how many bytes a window reads from a source.
fn window_takes(rt: &impl Abort, window: &mut Window, source: &mut ListSource, count: usize) {
    assert_eq!(rt; window.take_from(source), Ok(count));
}

// Drops bytes at the front of a window that has at least as many.
fn drop_front(window: &mut Window, count: usize) -> Result<(), Fail> {
    if count > window.bytes().len() {
        return Err(Fail::from("more is dropped than is there"));
    }
    window.drop_front(count);
    Ok(())
}

#[test]
fn much_is_taken_at_once_though_the_windows_end_is_near(rt: HostRuntime) -> Result<(), Fail> {
    let mut source = source_of_many(rt.alloc(), &[(1, 5_000), (2, 4_096)])?;
    let mut window = Window::new(rt.alloc(), 6_000)?;
    window_takes(&rt, &mut window, &mut source, 5_000);
    drop_front(&mut window, 4_000)?;
    window_takes(&rt, &mut window, &mut source, 4_096);
    assert_eq!(rt; window.bytes().get(999..1_001), Some([1, 2].as_slice()));
    Ok(())
}

// Checks the result of filling a window from a source, and the bytes in it after that.
fn is_filled(
    rt: &impl Abort,
    window: &mut Window,
    source: &mut ListSource,
    want: Result<(), SourceFault>,
    bytes: &[u8],
) {
    assert_eq!(rt; window.fill_from(source), want);
    assert_eq!(rt; window.bytes(), bytes);
}

#[test]
fn a_window_is_filled_and_emptied(rt: HostRuntime) -> Result<(), Fail> {
    let mut source = source_of(rt.alloc(), &PIECES, &[2])?;
    let mut window = Window::new(rt.alloc(), 3)?;
    window_takes(&rt, &mut window, &mut source, 3);
    assert!(rt; window.is_full());
    window_takes(&rt, &mut window, &mut source, 0);
    drop_front(&mut window, 2)?;
    assert_eq!(rt; window.bytes(), [3].as_slice());
    is_filled(&rt, &mut window, &mut source, Err(SourceFault), &[3]);
    is_filled(&rt, &mut window, &mut source, Ok(()), &[3, 4]);
    assert_eq!(rt; source.calls(), 5);
    Ok(())
}
