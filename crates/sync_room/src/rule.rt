//! What a seat at the table of a room knows, and the rule of the table.

use atomic_table::TableRule;
use disk_model::Disk;
use office_book::Book;
use std::marker::Model;
use std::snapshot::Snapshot;

/// What a seat knows. No value of it is made.
pub struct Known(());

impl Model for Known {
    ghost use Rattle.sync_room.specs.Rule.{SeatView, nobody};

    ghost Value = { SeatView };

    ghost view = { λ _. nobody };
}

/// The rule. Its key is the book with which the room was opened.
pub struct OneHistory;

impl<D: Disk> TableRule<Option<Book<D>>, Known, Snapshot<Book<D>>> for OneHistory {
    ghost use Rattle.office_book.specs.Safe.{moment_of};
    ghost use Rattle.sync_room.specs.Rule.{IsRoom, newcomer};
    ghost use Rattle.sync_room.specs.Turns.{IsDurable};

    ghost holds = { λ key s. IsRoom (moment_of D.clock D.faults) (IsDurable D.content D.images) (moment_of D.clock D.faults key.value) s };

    ghost first = { λ key. newcomer (moment_of D.clock D.faults key.value) };
}
