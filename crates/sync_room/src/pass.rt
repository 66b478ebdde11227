//! A caller's pass of a room.
ghost use Rattle.std.specs.Prelude.{◌≡◌, []};
ghost use Rattle.sync_room.specs.Passes.{pass_at, IsFree};

use crate::rule::Known;
use crate::steps::Place;
use atomic_table::Badge;
use disk_model::Disk;
use std::marker::Model;

/// What a caller of a room knows: its room, the calls that it has seen, the callers for which it answers, and its own caller.
/// It has no bytes.
#[derive(Drop)]
pub struct Pass {
    badge: Badge<Known>,
}

impl Model for Pass {
    ghost use Rattle.sync_room.specs.Passes.{PassState, HasOneView, pass_of};

    ghost Value = { PassState };

    ghost view = { λ p. pass_of p.badge.table_id p.badge.views };

    ghost invariant = { λ p. HasOneView p.badge.views };
}

impl Pass {
    /// The pass of a seat that is doing nothing.
    pub(crate) fn of<D: Disk>(seat: Place<D>) -> Pass
        requires free { IsFree seat.me.0 }
        requires none { seat.me.1 ≡ [] }
        ensures value { result ≡ pass_at seat.table_id seat.me.0 }
    {
        Pass {
            badge: seat.into_badge(),
        }
    }

    /// The seat of the pass.
    pub(crate) fn into_place<D: Disk>(self) -> Place<D>
        ensures value { pass_at result.table_id result.me.0 ≡ self }
        ensures free { IsFree result.me.0 }
        ensures none { result.me.1 ≡ [] }
    {
        let Pass { badge } = self;
        badge.into_seat()
    }
}
