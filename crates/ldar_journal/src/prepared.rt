ghost use Rattle.std.specs.Prelude.{◌≡◌, ◌<◌, ◌≤◌, [], ◌∷◌, ◌++◌, length, IfOk, OnOk};
ghost use Rattle.std.specs.List.{AllByRecursion};
ghost use Rattle.fact_kinds.specs.declared.limits.TheConstants.{FRAME_BATCHES};
ghost use Rattle.ldar_journal.specs.Image.{IsBatch, payload, IsFrame};
ghost use Rattle.ldar_journal.specs.Shelf.{behind_gate};

use crate::history::{Chapter, Frames, Note};
use fact_kinds::{Batch, Memory};
use ldar_facts::write_batch;
use std::alloc::Global;
use std::marker::Model;

/// A frame that is ready to be appended: the bytes after its gate. In contracts it is its batches.
#[derive(Drop)]
pub struct Frame {
    bytes: Vec<u8>,
    batches: Chapter,
}

impl Model for Frame {
    ghost use Rattle.std.specs.Prelude.{◌≡◌, List};
    ghost use Rattle.fact_kinds.specs.declared.batch.Batch.{Batch};
    ghost use Rattle.ldar_journal.specs.Image.{IsFrame};
    ghost use Rattle.ldar_journal.specs.Shelf.{behind_gate};

    ghost Value = { List Batch };

    ghost view = { λ f. f.batches };

    ghost invariant = { λ f. IsFrame f.batches × (f.bytes.items ≡ behind_gate f.batches) };
}

impl Frame {
    /// The bytes after the gate of this frame: its length, its payload and a closed gate.
    pub fn bytes(&self) -> &[u8]
        ensures value { result.now ≡ behind_gate self.now }
        ensures is_frame { IsFrame self.now }
    {
        self.bytes.as_slice()
    }

    /// The batches of this frame, for proofs only.
    pub fn note(&self) -> Note
        ensures value { result ≡ self.now }
    {
        Note::of(&self.batches)
    }

    /// Adds this frame to others.
    pub fn add_to(&self, frames: &mut Frames)
        ensures value { frames.new ≡ frames.old ++ self.now ∷ [] }
    {
        frames.push(&self.batches);
    }
}

/// Prepares a frame of 1 to 16 batches.
pub fn prepare(alloc: Global, batches: &[Batch]) -> Result<Frame, Memory>
    requires some { 0 < length batches.now }
    requires fits { length batches.now ≤ FRAME_BATCHES }
    ensures value { IfOk result (λ frame. frame ≡ batches.now) }
{
    let payload = payload_of(alloc, batches)?;
    let len = payload.len() as u32;
    let mut bytes = Vec::with_capacity(alloc, payload.len() + 5)?;
    bytes.extend_from_slice(&len.to_be_bytes())?;
    bytes.extend_from_slice(&payload)?;
    bytes.push(0)?;
    Ok(Frame {
        bytes,
        batches: Chapter::of(batches),
    })
}

/// The bytes of batches, one after the other.
fn payload_of(alloc: Global, batches: &[Batch]) -> Result<Vec<u8>, Memory>
    ensures value { IfOk result (λ bytes. bytes.items ≡ payload batches.now) }
    ensures each { OnOk result (AllByRecursion IsBatch batches.now) }
{
    let mut bytes = Vec::new(alloc);
    for batch in batches {
        write_batch(alloc, batch, &mut bytes)?;
    }
    Ok(bytes)
}
