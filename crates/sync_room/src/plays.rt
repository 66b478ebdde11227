//! What each kind of step at the table shows to the caller of the step.
ghost use Rattle.std.specs.Prelude.{[]};

use crate::rule::Known;
use atomic_table::{Join, Play, Split};
use disk_model::Disk;
use office_book::Book;
use std::marker::{Brand, PhantomData};

/// A ticket is drawn.
pub struct Drawing;

impl<D: Disk> Play<Option<Book<D>>, Known> for Drawing {
    ghost use Rattle.sync_room.specs.Rule.{Draws};

    ghost then = { Draws };
}

/// The history so far is looked at.
pub struct Looking;

impl<D: Disk> Play<Option<Book<D>>, Known> for Looking {
    ghost use Rattle.sync_room.specs.Rule.{LooksIdle};

    ghost then = { λ step. LooksIdle };
}

/// The history so far is looked at. The book is taken if the ticket with which the seat waits is served.
pub struct Serving;

impl<D: Disk> Play<Option<Book<D>>, Known> for Serving {
    ghost use Rattle.office_book.specs.Safe.{moment_of};
    ghost use Rattle.sync_room.specs.Rule.{LooksServed};

    ghost then = { λ step. LooksServed (moment_of D.clock D.faults) };
}

/// The request of a call that was made, its reply, and the moment of the book after it. Each call picks them.
pub trait Made {
    ghost use Rattle.ldar_law.specs.declared.reply.Reply.{Reply};
    ghost use Rattle.ldar_law.specs.declared.request.Request.{Request};
    ghost use Rattle.ldar_law.specs.Machine.{Moment};

    ghost request: { Request };

    ghost reply: { Reply };

    ghost after: { Moment };
}

impl Made for Brand {
    ghost use Rattle.ldar_law.specs.declared.reply.Reply.TheVariants as replies;
    ghost use Rattle.ldar_law.specs.declared.request.Request.TheVariants as requests;

    ghost request = { requests.Due 0 0 };

    ghost reply = { replies.Fault };

    ghost after = { record { state = record { history = []; doubt = [] }; faults = 0; clock = 0 } };
}

/// A call that was made is kept.
pub struct Keeping<C: Made>(PhantomData<C>);

impl<D: Disk, C: Made> Play<Option<Book<D>>, Known> for Keeping<C> {
    ghost use Rattle.sync_room.specs.Rule.{KeepsCallServed};

    ghost then = { λ step. KeepsCallServed C.request C.reply C.after };
}

/// The call that is kept becomes the last of the history, and the book goes back into its slot.
pub struct Advancing;

impl<D: Disk> Play<Option<Book<D>>, Known> for Advancing {
    ghost use Rattle.sync_room.specs.Rule.{Advances};

    ghost then = { λ step. Advances };
}

/// A new seat begins with all that this one has seen.
pub struct Telling;

impl Split<Known> for Telling {
    ghost use Rattle.sync_room.specs.Rule.{split_view};

    ghost left = { λ v. v };

    ghost right = { split_view };
}

/// One seat takes over what another has seen.
pub struct Joining;

impl Join<Known> for Joining {
    ghost use Rattle.sync_room.specs.Rule.{joined_view, nobody};

    ghost both = { joined_view };

    ghost spent = { nobody };
}
