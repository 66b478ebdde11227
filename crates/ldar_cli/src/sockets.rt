ghost use Rattle.std.specs.Prelude.{◌<◌, ◌≤◌, length, None, IfOk};

use disk_model::Disk;
use ldar_ports::{Ended, Front, FrontFault, Sink, SinkFault, Source, SourceFault};
use std::alloc::Global;
use std::io;
use std::io::{ErrorKind, Read, Write};
use std::net::{Shutdown, TcpListener, TcpStream};
use std::rt::Clock;
use std::sync::Arc;
use std::sync::atomic::{AtomicBool, Ordering};
use std::time::{Duration, Instant};

/// The most seconds in which a client sends nothing, or takes nothing of an answer.
const SILENCE: u64 = 30;

/// The most seconds from the first byte of a request to its last.
const REQUEST: u64 = 60;

/// The most seconds that are spent waiting for a client to take answers.
const PATIENCE: u64 = 60;

/// For each byte that a client takes, this many microseconds are given back: it has to take 4,096 bytes a second.
const BYTE: u64 = 244;

/// The most seconds that a client has to close its end after the last answer.
const LINGER: u64 = 2;

/// After the last answer, at most this many pieces of up to 4,096 bytes are read and dropped.
const PIECES_DROPPED: usize = 256;

/// The connections of a listener, one after the other. It exposes none of them. If there is no listener, each `accept` fails.
#[derive(Drop)]
pub struct TcpFront<'a, C: Clock> {
    listener: Option<TcpListener>,
    clock: &'a C,
    alloc: Global,
    faults: u64,
}

impl<'a, C: Clock> TcpFront<'a, C> {
    pub fn new(alloc: Global, clock: &'a C, listener: Option<TcpListener>) -> TcpFront<'a, C> {
        TcpFront {
            listener,
            clock,
            alloc,
            faults: 0,
        }
    }
}

impl<'a, C: Clock> Front for TcpFront<'a, C> {
    type In = TcpIn<'a, C>;

    type Out = TcpOut<'a, C>;

    ghost left = { λ f. None };

    ghost done = { λ f. None };

    ghost faults = { λ f. f.faults };

    ghost awaits = { λ f. Unit {0} };

    fn accept(&mut self) -> Result<Option<(TcpIn<'a, C>, TcpOut<'a, C>)>, FrontFault> {
        match connection(self.alloc, self.clock, &self.listener) {
            Ok(both) => Ok(Some(both)),
            Err(_) => {
                self.faults = self.faults.saturating_add(1);
                Err(FrontFault)
            }
        }
    }

    fn finish(&mut self, source: TcpIn<'a, C>, _sink: TcpOut<'a, C>, ended: Ended) {
        match ended {
            Ended::ReadFault | Ended::WriteFault => {}
            _ => {
                let _ = linger(self.clock, &source.talk.stream);
            }
        }
    }
}

/// Waits for the next connection, and returns its two ends.
fn connection<'a, C: Clock>(
    alloc: Global,
    clock: &'a C,
    listener: &Option<TcpListener>,
) -> io::Result<(TcpIn<'a, C>, TcpOut<'a, C>)> {
    let Some(listener) = listener else {
        return Err(io::Error::from(ErrorKind::NotConnected));
    };
    let stream = next_stream(listener)?;
    stream.set_nodelay(true)?;
    let answering = AtomicBool::new(false);
    let talk = Arc::new(alloc, Talk { stream, answering })?;
    let other = Arc::try_clone(&talk)?;
    let source = TcpIn {
        talk,
        clock,
        until: None,
        faults: 0,
    };
    let sink = TcpOut {
        talk: other,
        clock,
        left: Duration::from_secs(PATIENCE),
        faults: 0,
    };
    Ok((source, sink))
}

/// The next stream. A client that hung up while it waited is skipped.
fn next_stream(listener: &TcpListener) -> io::Result<TcpStream> {
    for _ in 0..u64::MAX {
        match listener.accept() {
            Ok((stream, _)) => return Ok(stream),
            Err(error) => match error.kind() {
                ErrorKind::Interrupted | ErrorKind::ConnectionAborted => {}
                _ => return Err(error),
            },
        }
    }
    Err(io::Error::from(ErrorKind::Other))
}

/// A connection, on which requests and answers alternate.
#[derive(Drop)]
struct Talk {
    stream: TcpStream,
    /// Bytes were sent since the last read.
    answering: AtomicBool,
}

/// The requests of a client. It exposes none of their bytes.
#[derive(Drop)]
pub struct TcpIn<'a, C: Clock> {
    talk: Arc<Talk>,
    clock: &'a C,
    /// When the request that arrives must be complete; `None` before its first byte.
    until: Option<Instant>,
    faults: u64,
}

impl<'a, C: Clock> Source for TcpIn<'a, C> {
    ghost left = { λ s. None };

    ghost faults = { λ s. s.faults };

    fn take(&mut self, into: &mut [u8]) -> Result<usize, SourceFault> {
        if self.talk.answering.swap(false, Ordering::SeqCst) {
            self.until = None;
        }
        match receive(self.clock, &self.talk.stream, self.until, into) {
            Ok((read, until)) => {
                self.until = Some(until);
                Ok(read)
            }
            Err(_) => {
                self.faults = self.faults.saturating_add(1);
                Err(SourceFault)
            }
        }
    }
}

/// The answers to a client. It exposes none of their bytes.
#[derive(Drop)]
pub struct TcpOut<'a, C: Clock> {
    talk: Arc<Talk>,
    clock: &'a C,
    /// For how long the client may still be waited for.
    left: Duration,
    faults: u64,
}

impl<'a, C: Clock> Sink for TcpOut<'a, C> {
    ghost pieces = { λ k. None };

    ghost faults = { λ k. k.faults };

    fn put<D: Disk>(&mut self, _beside: &D, bytes: &[u8]) -> Result<usize, SinkFault> {
        if bytes.is_empty() {
            return Ok(0);
        }
        if !self.talk.answering.swap(true, Ordering::SeqCst) {
            self.left = Duration::from_secs(PATIENCE);
        }
        match send(self.clock, &self.talk.stream, self.left, bytes) {
            Ok((written, left)) => {
                self.left = left;
                Ok(written)
            }
            Err(_) => {
                self.faults = self.faults.saturating_add(1);
                Err(SinkFault)
            }
        }
    }
}

/// Reads once. Returns how many bytes, and when the request must be complete: its time starts with its first bytes.
fn receive<C: Clock>(
    clock: &C,
    mut stream: &TcpStream,
    until: Option<Instant>,
    into: &mut [u8],
) -> io::Result<(usize, Instant)>
    ensures within { IfOk result (λ r. r.0 ≤ length into.old) }
{
    for _ in 0..u64::MAX {
        let wait = match until {
            Some(until) => time_left(clock, until)?,
            None => Duration::from_secs(SILENCE),
        };
        stream.set_read_timeout(Some(wait))?;
        match stream.read(into) {
            Ok(read) => {
                let until = match until {
                    Some(until) => until,
                    None => after(clock, REQUEST)?,
                };
                return Ok((read, until));
            }
            Err(error) => {
                if error.kind() != ErrorKind::Interrupted {
                    return Err(error);
                }
            }
        }
    }
    Err(io::Error::from(ErrorKind::Other))
}

/// Writes once. Returns how many bytes, and for how long the client may still be waited for. A write of no bytes is an error.
/// Only the time of the write counts, and not that in which the office works on an answer.
fn send<C: Clock>(
    clock: &C,
    mut stream: &TcpStream,
    patience: Duration,
    bytes: &[u8],
) -> io::Result<(usize, Duration)>
    ensures within { IfOk result (λ r. r.0 ≤ length bytes.now) }
    ensures some { IfOk result (λ r. 0 < r.0) }
{
    let mut left = patience;
    for _ in 0..u64::MAX {
        stream.set_write_timeout(Some(left.min(Duration::from_secs(SILENCE))))?;
        let began = Instant::now(clock)?;
        let written = stream.write(bytes);
        left = left.saturating_sub(began.elapsed(clock)?);
        match written {
            Ok(0) => return Err(io::Error::from(ErrorKind::WriteZero)),
            Ok(written) => return Ok((written, after_bytes(left, written))),
            Err(error) => {
                if error.kind() != ErrorKind::Interrupted {
                    return Err(error);
                }
            }
        }
    }
    Err(io::Error::from(ErrorKind::Other))
}

/// How long a client may still be waited for, after it took this number of bytes.
fn after_bytes(left: Duration, bytes: usize) -> Duration {
    let back = Duration::from_micros((bytes as u64).saturating_mul(BYTE));
    left.saturating_add(back).min(Duration::from_secs(PATIENCE))
}

fn after<C: Clock>(clock: &C, seconds: u64) -> io::Result<Instant> {
    match Instant::now(clock)?.checked_add(Duration::from_secs(seconds)) {
        Some(until) => Ok(until),
        None => Err(io::Error::from(ErrorKind::InvalidData)),
    }
}

/// The time until then, at most that for which a client may be silent.
fn time_left<C: Clock>(clock: &C, until: Instant) -> io::Result<Duration> {
    let left = until.duration_since(Instant::now(clock)?);
    Ok(left.min(Duration::from_secs(SILENCE)))
}

/// Ends the answers, and drops what the client still sends. Closing a connection with unread bytes resets it, and the client
/// could lose the last answer.
fn linger<C: Clock>(clock: &C, mut stream: &TcpStream) -> io::Result<()> {
    stream.shutdown(Shutdown::Write)?;
    let until = after(clock, LINGER)?;
    let mut dropped = [0u8; 4096];
    for _ in 0..PIECES_DROPPED {
        stream.set_read_timeout(Some(time_left(clock, until)?))?;
        if stream.read(&mut dropped)? == 0 {
            return Ok(());
        }
    }
    Ok(())
}
