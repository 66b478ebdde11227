ghost use Rattle.std.specs.Prelude.{◌≡◌, ◌≤◌, [], ◌∷◌, ℕ, List, Option, Some, codes, MatchOption, IfOk, IfSome, OnOk, OnErr};
ghost use Rattle.disk_model.specs.Faults.{Rose};
ghost use Rattle.ldar_ports.specs.Front.{Connection, Finished, Accepts, Finishes, HasNoneLeft, connection_of, finished_of};

use crate::{Ended, Sink, Source};
use std::error::Error;
use std::fmt;

/// A front could not accept a connection, and counted the error.
#[derive(Clone, Copy, Debug, PartialEq, Eq)]
pub struct FrontFault;

impl fmt::Display for FrontFault {
    ghost output = { λ _. Some (codes "front fault") };

    fn fmt<W: fmt::Write>(&self, f: &mut fmt::Formatter<W>) -> fmt::Result {
        write!(f, "front fault")
    }
}

impl Error for FrontFault {}

/// Where connections come from, each a source and a sink, and where they go back once they have ended; and a count of
/// errors.
pub trait Front: Drop {
    /// The input of a connection.
    type In: Source;

    /// The output of a connection.
    type Out: Sink;

    /// The connections that have not been accepted, in order, if the front exposes them.
    ghost left: { Self → Option (List Connection) };

    /// The connections that were handed back, in order, if the front exposes them.
    ghost done: { Self → Option (List Finished) };

    /// The number of failed calls. It stays at 2^64 - 1 once it reaches it.
    ghost faults: { Self → ℕ };

    /// A connection was accepted and is not yet handed back.
    ghost awaits: { Self → Type 0 };

    /// Accepts the next connection. `None` is for a front that is closed: no connection will come.
    fn accept(&mut self) -> Result<Option<(Self::In, Self::Out)>, FrontFault>
        ensures accepted { IfOk result (λ next. IfSome next (λ c. Accepts (left self.old)
            (connection_of (Self.In.left c.0) (Self.Out.pieces c.1) (Self.In.faults c.0) (Self.Out.faults c.1) ∷ []) (left self.new))) }
        ensures awaited { IfOk result (λ next. IfSome next (λ _. awaits self.new)) }
        ensures closed { IfOk result (λ next. MatchOption next
            (HasNoneLeft (left self.old) × (left self.new ≡ left self.old)) (λ _. Unit {0})) }
        ensures unchanged { OnErr result (left self.new ≡ left self.old) }
        ensures others { done self.new ≡ done self.old }
        ensures calm { OnOk result (faults self.new ≡ faults self.old) }
        ensures count { faults self.old ≤ faults self.new }
        ensures cause { OnErr result (Rose (faults self.old) (faults self.new)) };

    /// Takes back a connection that was accepted, and how it ended.
    fn finish(&mut self, source: Self::In, sink: Self::Out, ended: Ended)
        requires awaited { awaits self.old }
        ensures finished { Finishes (done self.old)
            (finished_of (connection_of (Self.In.left source) (Self.Out.pieces sink) (Self.In.faults source) (Self.Out.faults sink)) ended ∷ [])
            (done self.new) }
        ensures others { left self.new ≡ left self.old }
        ensures calm { faults self.new ≡ faults self.old };
}
