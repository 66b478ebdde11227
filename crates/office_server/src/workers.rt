//! Workers side by side, each at its front.
ghost use Rattle.std.specs.Prelude.{◌≡◌, length, ℕ, List, Option};
ghost use Rattle.std.specs.List.{AllByRecursion};
ghost use Rattle.std.specs.Thread.{IsSync};
ghost use Rattle.ldar_ports.specs.Front.{Connection, Finished};
ghost use Rattle.office_server.specs.Fronts.{EachWorked, IsDeskOf, WorkedAt};

use crate::desks::Desk;
use disk_model::Disk;
use ldar_ports::Front;
use std::sync::Wait;
use std::thread::{Threads, join_mut};
use sync_room::Room;

/// What one worker answers: a front, without the types of its connections.
pub trait Post: Drop {
    /// The connections that have not been accepted, in order, if they are exposed.
    ghost left: { Self → Option (List Connection) };

    /// The connections that were handed back, in order, if they are exposed.
    ghost done: { Self → Option (List Finished) };

    /// The number of failed calls.
    ghost faults: { Self → ℕ };

    /// Answers the connections, until there are no more or the front fails.
    fn answer<R: Wait, D: Disk>(&mut self, rt: &R, room: &Room<D>, desk: &mut Desk)
        requires of_room { IsDeskOf room.now desk.old }
        ensures worked { WorkedAt left done faults self.old self.new desk.old desk.new };
}

impl<L: Front> Post for L {
    ghost left = { L.left };

    ghost done = { L.done };

    ghost faults = { L.faults };

    fn answer<R: Wait, D: Disk>(&mut self, rt: &R, room: &Room<D>, desk: &mut Desk) {
        desk.work(rt, room, self);
    }
}

/// One worker, of slices with one front and one desk.
fn work_alone<R: Wait, P: Post, D: Disk>(
    rt: &R,
    room: &Room<D>,
    fronts: &mut [P],
    desks: &mut [Desk],
)
    requires one { (length fronts.old ≡ 1) × (length desks.old ≡ 1) }
    requires of_room { AllByRecursion (IsDeskOf room.now) desks.old }
    ensures each { EachWorked P.left P.done P.faults fronts.old fronts.new desks.old desks.new }
{
    fronts[0].answer(rt, room, &mut desks[0]);
}

/// One worker for each front, with the desk at its place. A worker that gets no thread works in the caller's, once the
/// others have ended.
pub fn work_all<R: Threads + Wait + Sync, P: Post + Send, D: Disk + Send>(
    rt: &R,
    room: &Room<D>,
    fronts: &mut [P],
    desks: &mut [Desk],
)
    requires same { length fronts.old ≡ length desks.old }
    requires of_room { AllByRecursion (IsDeskOf room.now) desks.old }
    ensures each { EachWorked P.left P.done P.faults fronts.old fronts.new desks.old desks.new }
{
    if fronts.is_empty() {
        return;
    }
    let (front, further) = fronts.split_at_mut(1);
    let (desk, others) = desks.split_at_mut(1);
    join_mut(
        rt,
        &mut ||
            requires { (length front.now ≡ 1) × (length desk.now ≡ 1) × AllByRecursion (IsDeskOf room.now) desk.now }
            ensures { EachWorked P.left P.done P.faults front.entry.now front.exit.now desk.entry.now desk.exit.now }
        { work_alone(rt, room, front, desk) },
        &mut ||
            requires { IsSync R.row × (length further.now ≡ length others.now) × AllByRecursion (IsDeskOf room.now) others.now }
            ensures { EachWorked P.left P.done P.faults further.entry.now further.exit.now others.entry.now others.exit.now }
        { work_all(rt, room, further, others) },
    );
}
