//! The index of a history's identities: one entry for each, in order, so that the index of an entry is its position.
//!
//! - A number above the earlier ones of its handheld continues the handheld's run. Its entry links to the last one of the run
//!   and to one further back, so that adding takes one step and a look-up a logarithmic number of steps.
//! - Any other number is late and goes into a tree over the bits of identities (`late_tree.rt`), at most 48 steps deep.
//! - Only the link to the entry before is promised. The link further back and its rank are hints, which a look-up checks
//!   before it follows them.
//! - Room for late ones is made together with the room for all. An entry that is older than the last `reserve` gives back its
//!   own room when it is removed, but no room in the tree; `fresh` counts those that give back both.
//!
//! The number of steps is argued and not stated by a clause.

ghost use Rattle.std.specs.Prelude.{◌≡◌, ◌+◌, ◌-◌, ◌^◌, ◌<◌, ◌≤◌, [], ◌∷◌, ◌++◌, length, take, min, None, IfOk, OnOk, OnErr};
ghost use Rattle.batch_positions.specs.Positions.{position_in};

use crate::entry::Entry;
use crate::late_tree::{Late, LateTree};
use crate::runs::{head_of, is_above, next_in_run, position_in_run, set_head};
use fact_kinds::Identity;
use std::alloc::{AllocError, Global};
use std::marker::Model;

/// The number of possible handhelds.
const HANDHELDS: usize = 1 << 16;

/// Identities in order, each with its position from 1. Adding an identity allocates nothing.
#[derive(Drop)]
pub struct Positions {
    entries: Vec<Entry>,
    /// For each handheld the position of the last entry of its run, or 0 if it has none.
    heads: Vec<u32>,
    late: LateTree,
    /// The number of identities that can still be added.
    room: usize,
    /// The number of identities added since room was last made.
    fresh: usize,
}

impl Model for Positions {
    ghost use Rattle.std.specs.Prelude.{◌≤◌, ◌+◌, ◌<◌, ◌^◌, map, vec_len, vec_capacity};
    ghost use Rattle.batch_positions.specs.Positions.{PositionsState};
    ghost use Rattle.batch_positions.specs.Index.{identity_at, IsIndexed, IsRoomy};

    ghost Value = { PositionsState };

    ghost view = { λ p. record { identities = map identity_at p.entries.items; room = p.room; fresh = p.fresh } };

    ghost invariant = { λ p. IsIndexed p.entries.items p.heads.items p.late.lates
        × (vec_len p.entries + p.room ≤ vec_capacity p.entries)
        × (vec_len p.entries + p.room < 2 ^ 32)
        × IsRoomy p.entries.items p.room p.fresh p.late.room };
}

impl Positions {
    /// An index without identities. The only error is out of memory.
    pub fn new(alloc: Global) -> Result<Positions, AllocError>
        ensures value { IfOk result (λ positions. positions ≡ record { identities = []; room = 0; fresh = 0 }) }
    {
        Ok(Positions {
            entries: Vec::new(alloc),
            heads: vec![in alloc; 0; HANDHELDS]?,
            late: LateTree::new(alloc),
            room: 0,
            fresh: 0,
        })
    }

    /// The number of identities.
    pub fn len(&self) -> usize
        ensures value { result ≡ length self.now.identities }
    {
        self.entries.len()
    }

    /// Makes room for `count` more identities, at most 2^32 - 1 in all. After an error the index is unchanged.
    pub fn reserve(&mut self, count: usize) -> Result<(), AllocError>
        ensures same { self.new.identities ≡ self.old.identities }
        ensures roomy { OnOk result (count ≤ self.new.room) }
        ensures grows { self.old.room ≤ self.new.room }
        ensures fresh { self.new.fresh ≤ self.old.fresh }
        ensures unchanged { OnErr result (self.new ≡ self.old) }
    {
        if count <= self.room {
            return Ok(());
        }
        if count > u32::MAX as usize - self.entries.len() {
            return Err(AllocError);
        }
        self.entries.reserve(count)?;
        self.late.reserve(count)?;
        self.room = count;
        self.fresh = 0;
        Ok(())
    }

    /// The position, from 1, of an identity, or `None` if it is not in the index.
    pub fn position(&self, identity: Identity) -> Option<u32>
        ensures value { result ≡ position_in identity self.now.identities }
    {
        let head = head_of(&self.heads, identity.handheld);
        match position_in_run(&self.entries, head, identity) {
            Some(position) => Some(position),
            None => self.late.find(identity),
        }
    }

    /// Adds an identity. It allocates nothing.
    pub fn push(&mut self, identity: Identity)
        requires roomy { 0 < self.old.room }
        requires is_new { position_in identity self.old.identities ≡ None }
        ensures identities { self.new.identities ≡ self.old.identities ++ identity ∷ [] }
        ensures room { self.new.room + 1 ≡ self.old.room }
        ensures fresh { self.new.fresh ≡ self.old.fresh + 1 }
    {
        let position = self.entries.len() as u32 + 1;
        let head = head_of(&self.heads, identity.handheld);
        self.room -= 1;
        self.fresh += 1;
        if is_above(&self.entries, head, identity.number) {
            let entry = next_in_run(&self.entries, head, identity);
            self.entries.push_reserved(entry);
            set_head(&mut self.heads, identity.handheld, position);
            return;
        }
        self.entries.push_reserved(Entry::late(identity));
        self.late.push(Late { identity, position });
    }

    /// Removes the last identity. If it was added since room was last made, its room is free again.
    pub fn pop(&mut self)
        requires some { 0 < length self.old.identities }
        ensures identities { self.new.identities ≡ take (length self.old.identities - 1) self.old.identities }
        ensures room { self.new.room ≡ self.old.room + min self.old.fresh 1 }
        ensures fresh { self.new.fresh ≡ self.old.fresh - 1 }
    {
        let Some(entry) = self.entries.pop() else {
            return;
        };
        let again = self.fresh.min(1);
        self.fresh -= again;
        self.room += again;
        if entry.late {
            self.late.pop();
            return;
        }
        set_head(&mut self.heads, entry.handheld, entry.earlier);
    }
}
