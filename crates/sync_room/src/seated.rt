//! A caller of a room, as an office of its own.
ghost use Rattle.std.specs.Prelude.{◌≡◌, ◌+◌, ◌≤◌, length, vec_len, vec_capacity};
ghost use Rattle.sync_room.specs.OwnCalls.{AskedAll};

use crate::Memory;
use crate::pass::Pass;
use crate::room::Room;
use disk_model::{Disk, NoDisk};
use ldar_law::{Reply, Request};
use office_book::Office;
use std::alloc::Global;
use std::marker::Model;
use std::sync::Wait;

/// A pass at its room, which asks as an office of its own. Contracts see the pass.
#[derive(Drop)]
pub struct Seated<'a, D: Disk, R: Wait> {
    room: &'a Room<D>,
    rt: &'a R,
    /// It is `Some` before and after each call.
    pass: Option<Pass>,
    /// Beside a room there is no disk: its book has it, and other threads may use it at any time.
    none: NoDisk,
}

impl<'a, D: Disk, R: Wait> Model for Seated<'a, D, R> {
    ghost use Rattle.std.specs.Prelude.{unwrap_or};
    ghost use Rattle.sync_room.specs.OwnCalls.{IsSeated};
    ghost use Rattle.sync_room.specs.Passes.{PassState, new_pass};

    ghost Value = { PassState };

    ghost view = { λ s. unwrap_or s.pass (new_pass s.room.now) };

    ghost invariant = { λ s. IsSeated s.room.now s.pass };
}

impl<'a, D: Disk, R: Wait> Seated<'a, D, R> {
    /// Seats a pass at its room.
    pub fn new(room: &'a Room<D>, rt: &'a R, pass: Pass) -> Seated<'a, D, R>
        requires of_room { pass.room ≡ room.now }
        ensures value { result ≡ pass }
    {
        Seated {
            room,
            rt,
            pass: Some(pass),
            none: NoDisk,
        }
    }

    /// Gives the pass back.
    pub fn into_pass(self) -> Pass
        ensures value { result ≡ self.entry }
    {
        let Seated {
            room: _,
            rt: _,
            pass,
            none: _,
        } = self;
        let Some(pass) = pass else { unreachable!() };
        pass
    }

    /// Asks the requests, one after the other, and appends the replies, for which there is room.
    fn ask_each(&mut self, alloc: Global, requests: &[Request], replies: &mut Vec<Reply>)
        requires room { vec_len replies.old + length requests.now ≤ vec_capacity replies.old }
        ensures all { AskedAll self.old requests.now replies.old.items replies.new.items self.new }
    {
        for request in requests {
            let reply = self.ask(alloc, request);
            replies.push_reserved(reply);
        }
    }
}

impl<'a, D: Disk, R: Wait> Office for Seated<'a, D, R> {
    ghost use Rattle.sync_room.specs.OwnCalls.{Grew};
    ghost use Rattle.sync_room.specs.OwnCallsLaws.{grew_stays, grew_joins};

    type Beside = NoDisk;

    ghost led = { Grew };

    ghost beside_of = { λ _. record {} };

    fn ask(&mut self, alloc: Global, request: &Request) -> Reply {
        let Some(pass) = self.pass.take() else {
            unreachable!()
        };
        let (pass, reply) = self.room.ask(self.rt, alloc, pass, request);
        self.pass = Some(pass);
        reply
    }

    fn ask_group(
        &mut self,
        alloc: Global,
        requests: &[Request],
        replies: &mut Vec<Reply>,
    ) -> Result<(), Memory> {
        replies.reserve(requests.len())?;
        self.ask_each(alloc, requests, replies);
        Ok(())
    }

    fn beside(&self) -> &NoDisk {
        &self.none
    }

    ghost stays = { grew_stays };

    ghost joins = { grew_joins };
}
