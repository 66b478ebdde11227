ghost use Rattle.std.specs.Prelude.{◌≡◌, ◌<◌, ◌≤◌, length, IsTrue, IfOk};

use crate::sockets::TcpFront;
use disk_model::Memory;
use office_server::{Service, service_in};
use std::net::{Ipv4Addr, Net, TcpListener, TcpStream};
use std::rt::Clock;

/// Whether the words of the command line ask for a service of a journal.
pub fn asks_service(words: &[String]) -> bool
    ensures some { IsTrue result → 2 < length words.now }
{
    match words.get(2) {
        Some(word) => word.as_str() == "serve",
        None => false,
    }
}

/// The fronts of the workers that the words ask for. Each `accept` fails if there is no listener. Words that are not in order
/// have one such front.
pub fn fronts_of<
    'a,
    R: Net<Listener = TcpListener, Stream = TcpStream> + Clock + AllocGlobal + Eprint,
>(rt: &'a R, words: &[String]) -> Result<Vec<TcpFront<'a, R>>, Memory>
    ensures some { IfOk result (λ fronts. 0 < length fronts.items) }
    ensures most { IfOk result (λ fronts. length fronts.items ≤ 64) }
{
    match service_in(rt.alloc(), words) {
        Ok(Some(service)) => fronts(rt, &listening(rt, service), usize::from(service.workers)),
        Ok(None) => fronts(rt, &None, 1),
        Err(_) => Err(Memory),
    }
}

/// A listener on the port, if there can be one. A line says where it listens, or why it does not.
fn listening<R: Net<Listener = TcpListener, Stream = TcpStream> + Eprint>(
    rt: &R,
    service: Service,
) -> Option<TcpListener> {
    let port = service.port;
    match TcpListener::bind(rt, (Ipv4Addr::LOCALHOST, port)) {
        Ok(listener) => {
            let workers = service.workers;
            let _ = eprintln!(rt; "listening on 127.0.0.1:{port}, workers: {workers}");
            Some(listener)
        }
        Err(error) => {
            let _ = eprintln!(rt; "cannot listen on 127.0.0.1:{port}: {error}");
            None
        }
    }
}

/// That many fronts, each with its own handle of the listener.
fn fronts<'a, R: Clock + AllocGlobal>(
    rt: &'a R,
    listener: &Option<TcpListener>,
    count: usize,
) -> Result<Vec<TcpFront<'a, R>>, Memory>
    ensures count { IfOk result (λ fronts. length fronts.items ≡ count) }
{
    let mut fronts = Vec::new(rt.alloc());
    for _ in 0..count {
        fronts.push(TcpFront::new(rt.alloc(), rt, cloned(listener)))?;
    }
    Ok(fronts)
}

/// Another handle of the listener, if there can be one.
fn cloned(listener: &Option<TcpListener>) -> Option<TcpListener> {
    match listener {
        Some(listener) => listener.try_clone().ok(),
        None => None,
    }
}

/// Notes how a service ended, unless all went well.
pub fn note<R: Eprint>(rt: &R, status: u8) {
    let text = match status {
        0 => return,
        2 => "usage: ldar JOURNAL serve PORT WORKERS",
        5 => "disk fault",
        6 => "memory",
        7 => "the journal does not open: ldar JOURNAL check says why",
        _ => "front fault",
    };
    let _ = rt.eprintln(text);
}
