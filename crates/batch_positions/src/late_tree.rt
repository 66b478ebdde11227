//! A tree of late identities. Its branches follow the bits of an identity, so its depth does not depend on the order of
//! arrival, and nothing is moved or rebalanced.

ghost use Rattle.std.specs.Prelude.{◌≡◌, ◌≢◌, ℕ, ◌+◌, ◌-◌, ◌^◌, ◌<◌, ◌≤◌, List, [], ◌∷◌, ◌++◌, length, take, slice_get, Some, IfSome, IsNone, OnOk};
ghost use Rattle.batch_positions.specs.Links.{at_position};
ghost use Rattle.batch_positions.specs.LateTree.{child_of, path_of, IsReached, IsTree, IsNextOnPath, EndsHere, KeepsPaths, SetsChild, Hangs, CutsOff};

use crate::links::at_position;
use fact_kinds::Identity;
use std::alloc::{AllocError, Global};
use std::marker::Model;

/// An identity that is in no run, and its position among all identities.
#[derive(Clone, Copy)]
pub struct Late {
    pub identity: Identity,
    pub position: u32,
}

/// A node of the tree. Links are places of nodes, from 1, and 0 is no link.
#[derive(Clone, Copy)]
pub struct Node {
    pub late: Late,
    pub low: u32,
    pub high: u32,
}

/// Identities in order of arrival, in a tree over the bits of each. Each level of the tree branches on one bit, so
/// that a path has at most as many steps as an identity has bits.
#[derive(Drop)]
pub struct LateTree {
    nodes: Vec<Node>,
}

impl Model for LateTree {
    ghost use Rattle.std.specs.Prelude.{◌-◌, map, vec_len, vec_capacity};
    ghost use Rattle.batch_positions.specs.LateTree.{LateState, IsTree};

    ghost Value = { LateState };

    ghost view = { λ t. record {
      lates = map (λ node. node.late) t.nodes.items;
      room = vec_capacity t.nodes - vec_len t.nodes;
    } };

    ghost invariant = { λ t. IsTree t.nodes.items };
}

impl LateTree {
    /// A tree without identities.
    pub fn new(alloc: Global) -> LateTree
        ensures value { result.lates ≡ [] }
    {
        LateTree {
            nodes: Vec::new(alloc),
        }
    }

    /// Makes room for `count` more identities. When out of memory, the identities are the same.
    pub fn reserve(&mut self, count: usize) -> Result<(), AllocError>
        ensures same { self.new.lates ≡ self.old.lates }
        ensures grows { self.old.room ≤ self.new.room }
        ensures roomy { OnOk result (count ≤ self.new.room) }
    {
        self.nodes.reserve(count)
    }

    /// The position of an identity, or `None` if it is not in the tree.
    pub fn find(&self, identity: Identity) -> Option<u32>
        ensures found { IfSome result (λ position. (at : ℕ) × (slice_get self.now.lates at ≡ Some (record { identity = identity; position = position }))) }
        ensures none { IsNone result → (at : ℕ) (late : Late) → slice_get self.now.lates at ≡ Some late → late.identity ≢ identity }
    {
        find_in(&self.nodes, identity)
    }

    /// Adds an identity. It allocates nothing.
    pub fn push(&mut self, late: Late)
        requires roomy { 0 < self.old.room }
        requires fits { length self.old.lates < 2 ^ 32 - 1 }
        ensures lates { self.new.lates ≡ self.old.lates ++ late ∷ [] }
        ensures room { self.new.room + 1 ≡ self.old.room }
    {
        let place = self.nodes.len() as u32 + 1;
        hang(&mut self.nodes, place, path_of(late.identity));
        self.nodes.push_reserved(Node {
            late,
            low: 0,
            high: 0,
        });
    }

    /// Removes the last identity. Its room is free again.
    pub fn pop(&mut self)
        requires some { 0 < length self.old.lates }
        requires fits { length self.old.lates < 2 ^ 32 }
        ensures lates { self.new.lates ≡ take (length self.old.lates - 1) self.old.lates }
        ensures room { self.new.room ≡ self.old.room + 1 }
    {
        cut_last(&mut self.nodes);
        let _ = self.nodes.pop();
    }
}

/// The bits of an identity as a number.
fn path_of(identity: Identity) -> u64
    ensures value { result ≡ path_of identity }
{
    u64::from(identity.number) + u64::from(identity.handheld) * 4_294_967_296
}

/// The child of a node on the side of a path's first bit, or 0.
fn child_of(node: &Node, path: u64) -> u32
    ensures value { result ≡ child_of path node.now }
{
    if path % 2 == 1 { node.high } else { node.low }
}

/// The place of the next node of a path after a node, if there is one.
fn child_at(nodes: &[Node], place: u32, path: u64) -> Option<u32>
    ensures found { IfSome result (IsNextOnPath nodes.now path place) }
    ensures none { IsNone result → EndsHere nodes.now path place }
{
    let node = at_position(nodes, place)?;
    let child = child_of(&node, path);
    if child <= place || child as usize > nodes.len() {
        return None;
    }
    Some(child)
}

/// The position of an identity among some nodes, or `None` if it is not there.
fn find_in(nodes: &[Node], identity: Identity) -> Option<u32>
    requires tree { IsTree nodes.now }
    ensures found { IfSome result (λ position. (at : ℕ) × (node : Node)
        × (at_position nodes.now at ≡ Some node)
        × (node.late ≡ record { identity = identity; position = position })) }
    ensures none { IsNone result → (at : ℕ) (node : Node) → at_position nodes.now at ≡ Some node → node.late.identity ≢ identity }
{
    let mut place = 1;
    let mut path = path_of(identity);
    while let Some(node) = at_position(nodes, place) {
        if node.late.identity == identity {
            return Some(node.late.position);
        }
        match child_at(nodes, place, path) {
            Some(child) => place = child,
            None => return None,
        }
        path /= 2;
    }
    None
}

/// The last node of a path from the first node, and the rest of the path there.
fn end_of(nodes: &[Node], path: u64) -> (u32, u64)
    requires some { 0 < length nodes.now }
    ensures within { (0 < result.0) × (result.0 ≤ length nodes.now) }
    ensures goes_on { (longer : List Node) (goal : ℕ) → KeepsPaths nodes.now longer → IsReached longer goal result.1 result.0 → IsReached longer goal path 1 }
    ensures ends { EndsHere nodes.now result.1 result.0 }
{
    let mut place = 1;
    let mut rest = path;
    while let Some(child) = child_at(nodes, place, rest) {
        place = child;
        rest /= 2;
    }
    (place, rest)
}

/// The node before a place on a path from the first node, and the rest of the path there.
fn parent_of(nodes: &[Node], place: u32, path: u64) -> Option<(u32, u64)>
    ensures found { IfSome result (λ parent. IsNextOnPath nodes.now parent.1 parent.0 place) }
{
    let mut parent = 1;
    let mut rest = path;
    while let Some(child) = child_at(nodes, parent, rest) {
        if child == place {
            return Some((parent, rest));
        }
        parent = child;
        rest /= 2;
    }
    None
}

/// Writes the child of a node on the side of a path's first bit.
fn set_child(nodes: &mut [Node], place: u32, path: u64, child: u32)
    requires within { (0 < place) × (place ≤ length nodes.old) }
    ensures value { SetsChild place path child nodes.old nodes.new }
{
    let node = &mut nodes[place as usize - 1];
    if path % 2 == 1 {
        node.high = child;
    } else {
        node.low = child;
    }
}

/// Extends a path to the place after the last node.
fn hang(nodes: &mut [Node], place: u32, path: u64)
    requires next { place ≡ length nodes.old + 1 }
    ensures value { Hangs place path nodes.old nodes.new }
{
    if !nodes.is_empty() {
        let (end, rest) = end_of(nodes, path);
        set_child(nodes, end, rest, place);
    }
}

/// Removes the last place from a path.
fn cut_off(nodes: &mut [Node], place: u32, path: u64)
    ensures value { CutsOff place nodes.old nodes.new }
{
    if let Some((parent, rest)) = parent_of(nodes, place, path) {
        set_child(nodes, parent, rest, 0);
    }
}

/// Removes the last place from the path that leads to it.
fn cut_last(nodes: &mut [Node])
    requires fits { length nodes.old < 2 ^ 32 }
    ensures value { CutsOff (length nodes.old) nodes.old nodes.new }
{
    let place = nodes.len() as u32;
    if let Some(last) = at_position(nodes, place) {
        cut_off(nodes, place, path_of(last.late.identity));
    }
}
