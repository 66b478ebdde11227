//! The desks of workers: each has a pass of the room, with which its worker asks. The passes meet once all have ended.
ghost use Rattle.std.specs.Prelude.{◌≡◌, Some, None, false, replicate, IfOk};
ghost use Rattle.std.specs.List.{AllByRecursion, list_all};
ghost use Rattle.office_server.specs.Fronts.{IsDeskOf, WorkedAt, desk_with};
ghost use Rattle.office_server.specs.Together.{HasOwn, Together};
ghost use Rattle.sync_room.specs.Passes.{new_pass};

use disk_model::Disk;
use ldar_ports::Front;
use ldar_session::{Worked, work};
use std::alloc::{AllocError, Global};
use std::marker::Model;
use std::sync::Wait;
use sync_room::{Pass, Room, Seated};

/// The desk of a worker.
#[derive(Drop)]
pub struct Desk {
    /// It is `Some` before and after the work.
    pass: Option<Pass>,
    /// Whether the worker left its front because that was closed.
    closed: bool,
    /// Where the worker allocates.
    alloc: Global,
}

impl Model for Desk {
    ghost use Rattle.office_server.specs.Fronts.{DeskState};

    ghost Value = { DeskState };

    ghost view = { λ d. record { pass = d.pass; closed = d.closed } };
}

impl Desk {
    /// A desk with a pass, before the work.
    fn new(alloc: Global, pass: Pass) -> Desk
        ensures value { result ≡ desk_with pass }
    {
        Desk {
            pass: Some(pass),
            closed: false,
            alloc,
        }
    }

    /// Takes the pass out.
    fn into_pass(self) -> Option<Pass>
        ensures value { result ≡ self.pass }
    {
        let Desk {
            pass,
            closed: _,
            alloc: _,
        } = self;
        pass
    }

    /// Whether the worker left its front because that was closed.
    fn is_closed(&self) -> bool
        ensures value { result ≡ self.now.closed }
    {
        self.closed
    }

    /// Answers the connections of a front, until it is closed or fails.
    pub fn work<R: Wait, L: Front, D: Disk>(&mut self, rt: &R, room: &Room<D>, front: &mut L)
        requires of_room { IsDeskOf room.now self.old }
        ensures worked { WorkedAt L.left L.done L.faults front.old front.new self.old self.new }
    {
        let Some(pass) = self.pass.take() else {
            unreachable!()
        };
        let mut seated = Seated::new(room, rt, pass);
        let worked = work(rt, self.alloc, &mut seated, front);
        self.closed = worked == Worked::Closed;
        self.pass = Some(seated.into_pass());
    }
}

/// Desks with passes that are split from the first pass of a room, which has seen nothing.
pub fn desks_beside<D: Disk>(
    alloc: Global,
    room: &Room<D>,
    first: Pass,
    count: usize,
) -> Result<(Pass, Vec<Desk>), AllocError>
    requires first { first ≡ new_pass room.now }
    ensures value { IfOk result (λ r. (r.0 ≡ new_pass room.now) × (r.1.items ≡ replicate count (desk_with (new_pass room.now)))) }
{
    let mut desks = Vec::with_capacity(alloc, count)?;
    let mut whole = first;
    for _ in 0..count {
        let (kept, other) = room.split(alloc, whole);
        whole = kept;
        desks.push(Desk::new(alloc, other?))?;
    }
    Ok((whole, desks))
}

/// Whether each worker left its front because that was closed.
pub fn all_closed(desks: &[Desk]) -> bool
    ensures value { result ≡ list_all (λ desk. desk.closed) desks.now }
{
    desks.iter().all(|desk| desk.is_closed())
}

/// One pass, in which all of these met.
pub fn meet_all<D: Disk>(room: &Room<D>, whole: Pass, desks: Vec<Desk>) -> Pass
    requires whole { whole ≡ new_pass room.now }
    requires own { AllByRecursion (HasOwn room.now) desks.items }
    ensures together { Together room.now result desks.items }
{
    let mut whole = whole;
    let mut desks = desks;
    while let Some(desk) = desks.pop() {
        let Some(pass) = desk.into_pass() else {
            unreachable!()
        };
        whole = room.meet(whole, pass);
    }
    whole
}
