ghost use Rattle.std.specs.Prelude.{◌≡◌, ◌<◌, ◌≤◌, ◌+◌, [], ◌∷◌, Some, length, map, MatchOption, IfOk, IfSome, OnErr, OnOk, IsErr};
ghost use Rattle.disk_model.specs.Calls.{IsFailing};
ghost use Rattle.disk_model.specs.Faults.{Rose};
ghost use Rattle.ldar_ports.specs.ListFront.{after_finish, connection_at, finished_at, finished_state};

use crate::{Ended, Front, FrontFault, ListSource, Memory, StampedSink};
use disk_model::Calls;
use std::alloc::Global;
use std::marker::Model;

/// A connection in memory that was handed back.
#[derive(Drop)]
pub struct FinishedConnection {
    source: ListSource,
    sink: StampedSink,
    ended: Ended,
}

impl Model for FinishedConnection {
    ghost use Rattle.ldar_ports.specs.ListFront.{FinishedState, finished_state};

    ghost Value = { FinishedState };

    ghost view = { λ f. finished_state f.source f.sink f.ended };
}

impl FinishedConnection {
    /// Its source, with the bytes that were not read.
    pub fn source(&self) -> &ListSource
        ensures value { result.now ≡ self.now.source }
    {
        &self.source
    }

    /// Its sink, with what was written.
    pub fn sink(&self) -> &StampedSink
        ensures value { result.now ≡ self.now.sink }
    {
        &self.sink
    }

    /// How it ended.
    pub fn ended(&self) -> Ended
        ensures value { result ≡ self.now.ended }
    {
        self.ended
    }
}

/// A front in memory, for tests. The calls of `accept` are numbered from 0; the calls with given numbers fail. The
/// memory for the connections that are handed back is allocated when it is created.
#[derive(Drop)]
pub struct ListFront {
    left: Vec<(ListSource, StampedSink)>,
    done: Vec<FinishedConnection>,
    calls: Calls,
}

impl Model for ListFront {
    ghost use Rattle.std.specs.Prelude.{◌≤◌, ◌+◌, length, vec_capacity};
    ghost use Rattle.ldar_ports.specs.ListFront.{FrontState};

    ghost Value = { FrontState };

    ghost view = { λ f. record {
      left = f.left.items;
      done = f.done.items;
      room = vec_capacity f.done;
      calls = f.calls;
    } };

    ghost invariant = { λ f. length f.left.items + length f.done.items ≤ vec_capacity f.done };
}

impl ListFront {
    /// A front of these connections, on which the calls with these numbers will fail.
    pub fn new(
        alloc: Global,
        connections: Vec<(ListSource, StampedSink)>,
        failing: &[u64],
    ) -> Result<ListFront, Memory>
        ensures left { IfOk result (λ front. front.left ≡ connections.items) }
        ensures none_done { IfOk result (λ front. front.done ≡ []) }
        ensures calls { IfOk result (λ front. front.calls ≡ record { failing = failing.now; made = 0; faults = 0 }) }
    {
        Ok(ListFront {
            done: Vec::with_capacity(alloc, connections.len())?,
            left: connections,
            calls: Calls::new(alloc, failing)?,
        })
    }

    /// The connections that were handed back, in order.
    pub fn done(&self) -> &[FinishedConnection]
        ensures value { result.now ≡ self.now.done }
    {
        &self.done
    }

    /// The number of calls of `accept` that failed.
    pub fn faults(&self) -> u64
        ensures value { result ≡ self.now.calls.faults }
    {
        self.calls.faults()
    }
}

impl Front for ListFront {
    type In = ListSource;

    type Out = StampedSink;

    ghost left = { λ front. Some (map connection_at front.left) };

    ghost done = { λ front. Some (map finished_at front.done) };

    ghost faults = { λ front. front.calls.faults };

    ghost awaits = { λ front. length front.left + length front.done < front.room };

    fn accept(&mut self) -> Result<Option<(ListSource, StampedSink)>, FrontFault>
        ensures value { IfOk result (λ next. MatchOption next
            ((self.old.left ≡ []) × (self.new.left ≡ [])) (λ c. self.old.left ≡ c ∷ self.new.left)) }

        // It fails exactly at the calls that were given.
        ensures fails { IsFailing self.old.calls → IsErr result }
        ensures only_failing { OnErr result (IsFailing self.old.calls) }

        ensures awaited { IfOk result (λ next. IfSome next (λ _. length self.new.left + length self.new.done < self.new.room)) }
        ensures unchanged { OnErr result (self.new.left ≡ self.old.left) }
        ensures others { self.new.done ≡ self.old.done }
        ensures calm { OnOk result (self.new.calls.faults ≡ self.old.calls.faults) }
        ensures count { self.old.calls.faults ≤ self.new.calls.faults }
        ensures cause { OnErr result (Rose self.old.calls.faults self.new.calls.faults) }
    {
        if self.calls.is_failing() {
            self.calls.fail();
            return Err(FrontFault);
        }
        self.calls.pass();
        if self.left.is_empty() {
            return Ok(None);
        }
        Ok(Some(self.left.remove(0)))
    }

    fn finish(&mut self, source: ListSource, sink: StampedSink, ended: Ended)
        requires awaited { length self.old.left + length self.old.done < self.old.room }
        ensures after { self.new ≡ after_finish self.old (finished_state source sink ended) }
    {
        self.done.push_reserved(FinishedConnection {
            source,
            sink,
            ended,
        });
    }
}
