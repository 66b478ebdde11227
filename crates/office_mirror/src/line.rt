ghost use Rattle.std.specs.Prelude.{◌≤◌, ◌++◌, OnErr};
ghost use Rattle.std.specs.Fmt.{decimal};
ghost use Rattle.disk_model.specs.Faults.{Rose};
ghost use Rattle.office_mirror.specs.MirrorRun.{IsNoStranger, line_of};
ghost use Rattle.office_mirror.specs.Line.{IsPutAt};

use crate::taken::Taken;
use disk_model::Disk;
use itoa::Buffer;
use ldar_ports::{Sink, SinkFault, put_all};

/// Writes the line for the outcome of an answer, if it has one. Allocates nothing.
pub(crate) fn put_line<K: Sink, D: Disk>(
    sink: &mut K,
    beside: &D,
    taken: &Taken,
) -> Result<(), SinkFault>
    ensures said { IsPutAt (D.clock beside.now) (line_of taken.now) (K.pieces sink.old) (K.pieces sink.new) result }
    ensures has_line { OnErr result (IsNoStranger taken.now) }
    ensures count { K.faults sink.old ≤ K.faults sink.new }
    ensures cause { OnErr result (Rose (K.faults sink.old) (K.faults sink.new)) }
{
    match taken {
        Taken::Gap { start, held } => put_gap(sink, beside, *start, *held),
        Taken::Held { count } => put_number(sink, beside, "mirrored ", *count, "\n"),
        Taken::Stranger { .. } => Ok(()),
        Taken::Fault => put_text(sink, beside, "disk fault\n"),
        Taken::Memory => put_text(sink, beside, "memory\n"),
    }
}

/// Writes the line of an answer that starts after more batches than are held.
fn put_gap<K: Sink, D: Disk>(
    sink: &mut K,
    beside: &D,
    start: u32,
    held: u32,
) -> Result<(), SinkFault>
    ensures said { IsPutAt (D.clock beside.now) (line_of (Taken.Gap start held)) (K.pieces sink.old) (K.pieces sink.new) result }
    ensures count { K.faults sink.old ≤ K.faults sink.new }
    ensures cause { OnErr result (Rose (K.faults sink.old) (K.faults sink.new)) }
{
    put_number(sink, beside, "gap ", start, " ")?;
    put_number(sink, beside, "", held, "\n")
}

/// Writes a text, a number and a text.
fn put_number<K: Sink, D: Disk>(
    sink: &mut K,
    beside: &D,
    before: &str,
    number: u32,
    after: &str,
) -> Result<(), SinkFault>
    ensures said { IsPutAt (D.clock beside.now) (before.now ++ (decimal number ++ after.now)) (K.pieces sink.old) (K.pieces sink.new) result }
    ensures count { K.faults sink.old ≤ K.faults sink.new }
    ensures cause { OnErr result (Rose (K.faults sink.old) (K.faults sink.new)) }
{
    put_text(sink, beside, before)?;
    let mut digits = Buffer::new();
    put_both(sink, beside, digits.format(number), after)
}

/// Writes two texts, one after the other.
fn put_both<K: Sink, D: Disk>(
    sink: &mut K,
    beside: &D,
    first: &str,
    second: &str,
) -> Result<(), SinkFault>
    ensures said { IsPutAt (D.clock beside.now) (first.now ++ second.now) (K.pieces sink.old) (K.pieces sink.new) result }
    ensures count { K.faults sink.old ≤ K.faults sink.new }
    ensures cause { OnErr result (Rose (K.faults sink.old) (K.faults sink.new)) }
{
    put_text(sink, beside, first)?;
    put_text(sink, beside, second)
}

/// Writes a text.
fn put_text<K: Sink, D: Disk>(sink: &mut K, beside: &D, text: &str) -> Result<(), SinkFault>
    ensures said { IsPutAt (D.clock beside.now) text.now (K.pieces sink.old) (K.pieces sink.new) result }
    ensures count { K.faults sink.old ≤ K.faults sink.new }
    ensures cause { OnErr result (Rose (K.faults sink.old) (K.faults sink.new)) }
{
    put_all(sink, beside, text.as_bytes())
}
