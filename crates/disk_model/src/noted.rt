use crate::Memory;
use crate::places::overwrite;
use std::alloc::Global;
use std::marker::Model;

// A successful write.
#[derive(Drop)]
pub struct NotedWrite {
    at: u64,
    bytes: Vec<u8>,
}

impl Model for NotedWrite {
    ghost use Rattle.disk_model.specs.Writes.{Write};

    ghost Value = { Write };

    ghost view = { λ w. record { at = w.at; bytes = w.bytes.items } };
}

// A call's change of what a crash may leave.
#[derive(Drop)]
pub enum Event {
    Wrote(NotedWrite),
    Synced,
}

// A successful call of a disk, with its number.
#[derive(Drop)]
pub struct Noted {
    pub call: u64,
    event: Event,
}

impl Noted {
    ghost use Rattle.std.specs.Prelude.{◌≡◌, IfOk, OnOk};
    ghost use Rattle.disk_model.specs.MemoryDisk.{noted_write, noted_sync, after_event};
    ghost use Rattle.disk_model.specs.Stopped.{after_part};

    // The write made by the call with this number.
    pub fn write(alloc: Global, call: u64, at: u64, bytes: &[u8]) -> Result<Noted, Memory>
        ensures value { IfOk result (λ noted. noted ≡ noted_write call at bytes.now) }
    {
        let bytes = Vec::from_slice(alloc, bytes)?;
        Ok(Noted {
            call,
            event: Event::Wrote(NotedWrite { at, bytes }),
        })
    }

    // The sync made by the call with this number.
    pub fn sync(call: u64) -> Noted
        ensures value { result ≡ noted_sync call }
    {
        Noted {
            call,
            event: Event::Synced,
        }
    }

    // Repeats the call on these bytes.
    pub fn redo(&self, content: &mut Vec<u8>) -> Result<(), Memory>
        ensures value { OnOk result
            (content.new.items ≡ after_event self.now.event content.old.items) }
    {
        match &self.event {
            Event::Wrote(write) => overwrite(content, write.at as usize, &write.bytes),
            Event::Synced => Ok(()),
        }
    }

    // Repeats a part of the call: a write puts these bytes at the front of its range.
    pub fn redo_part(&self, left: &[u8], content: &mut Vec<u8>) -> Result<(), Memory>
        ensures value { OnOk result
            (content.new.items ≡ after_part self.now.event left.now content.old.items) }
    {
        match &self.event {
            Event::Wrote(write) => {
                let n = left.len().min(write.bytes.len());
                overwrite(content, write.at as usize, &left[..n])
            }
            Event::Synced => Ok(()),
        }
    }
}
