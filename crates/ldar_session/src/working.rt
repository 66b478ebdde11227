ghost use Rattle.std.specs.Prelude.{◌≡◌, ◌≤◌};
ghost use Rattle.disk_model.specs.Faults.{Rose};
ghost use Rattle.ldar_ports.specs.Front.{HasNoneLeft};
ghost use Rattle.ldar_session.specs.Served.{clock_beside};
ghost use Rattle.ldar_session.specs.Working.{HasWorked};

use crate::connection::session;
use ldar_ports::Front;
use office_interface::Office;
use std::alloc::Global;
use std::sync::Wait;

/// Why a worker left its front.
#[derive(Clone, Copy, Debug, PartialEq, Eq)]
pub enum Worked {
    /// The front is closed: no connection will come.
    Closed,
    /// The front could not accept a connection.
    FrontFault,
}

/// Accepts the connections of a front, one after the other. It answers the requests of each and hands it back with its
/// end, however it ended. It returns when the front is closed, or at the first error of the front.
pub fn work<R: Wait, O: Office, L: Front>(
    rt: &R,
    alloc: Global,
    office: &mut O,
    front: &mut L,
) -> Worked
    ensures worked { HasWorked O.led (clock_beside O.Beside.clock O.beside_of) office.old office.new
        (L.left front.old) (L.left front.new) (L.done front.old) (L.done front.new) }
    ensures closed { result ≡ Worked.Closed → HasNoneLeft (L.left front.new) × (L.faults front.new ≡ L.faults front.old) }
    ensures cause { result ≡ Worked.FrontFault → Rose (L.faults front.old) (L.faults front.new) }
    ensures count { L.faults front.old ≤ L.faults front.new }
{
    for _ in rt.forever() {
        let Ok(next) = front.accept() else {
            return Worked::FrontFault;
        };
        let Some((mut source, mut sink)) = next else {
            return Worked::Closed;
        };
        let ended = session(alloc, office, &mut source, &mut sink);
        front.finish(source, sink, ended);
    }
    unreachable!()
}
