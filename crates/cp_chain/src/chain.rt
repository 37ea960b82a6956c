//! Chains: doubly linked lists by index through one vector of nodes.
ghost use Rattle.std.specs.Prelude.{◌≡◌, ◌≢◌, ◌≤◌, ◌<◌, ◌+◌, ◌==◌, ◌↔◌, ℕ, [], ◌∷◌, ◌++◌, true, false, length, IsTrue, IsSome, OnOk, IfSome, IfNone, Some, None};
ghost use Rattle.cp_chain.specs.Chains.{find_item, HasHandle, without, from_handle, first_handle, last_handle, next_handle, prev_handle, HasNewHandle, IsChain};

use crate::handle::{Handle, at_link};
use crate::iter::ChainIter;
use crate::node::{END, Node, fill, set_next, set_prev, take_out};
use std::alloc::{AllocError, Global};
use std::marker::Model;

// The most nodes of a chain: each has a number below the link that names none.
const MOST_NODES: usize = 4294967295;

/// A list of items, each under a handle of its own, seen as the list of both, by a doubly linked list by index.
///
/// Handles are given out from 0 on. A removed item leaves a gap, which keeps no item and which nobody reads, and its handle is given out
/// again only if there is room for no new one. Until then the nodes stand in the order of the list, and whoever goes along it goes
/// forward in memory; a list that has lost that order doesn't get it back.
#[derive(Drop)]
pub struct Chain<T> {
    nodes: Vec<Node<T>>,
    len: usize,
    first: u32,
    last: u32,
    free: u32,
    in_order: bool,
}

impl<T> Model for Chain<T> {
    ghost use Rattle.std.specs.Prelude.{◌≤◌, ◌-◌, length, min, vec_capacity};
    ghost use Rattle.cp_chain.specs.Chains.{ChainView, chain_code};

    ghost Value = { ChainView T };

    ghost coded = { chain_code T.code };

    ghost use Rattle.cp_chain.specs.Nodes.{walk, IsLinked};

    ghost view = { λ c. record {
      entries = walk c.nodes.items c.len c.first;
      spare = min (vec_capacity c.nodes) 4294967295 - c.len;
      slots = length c.nodes.items;
      in_order = c.in_order;
    } };

    ghost invariant = { λ c. IsLinked c.nodes.items c.first c.last c.len c.free c.in_order };
}

impl<T> Chain<T> {
    /// The chain with no item. It takes no memory.
    pub fn new(alloc: Global) -> Chain<T>
        ensures entries { result.entries ≡ [] }
        ensures slots { result.slots ≡ 0 }
        ensures in_order { result.in_order ≡ true }
    {
        Chain {
            nodes: Vec::new(alloc),
            len: 0,
            first: END,
            last: END,
            free: END,
            in_order: true,
        }
    }

    /// Makes room for `n` further items, all of which get new handles, whatever gaps there are. The error comes only for want of memory,
    /// or for want of numbers below 4,294,967,295, and leaves the chain as it was.
    pub fn reserve(&mut self, n: usize) -> Result<(), AllocError>
        ensures entries { self.new.entries ≡ self.old.entries }
        ensures slots { self.new.slots ≡ self.old.slots }
        ensures in_order { self.new.in_order ≡ self.old.in_order }
        ensures ok { OnOk result (n ≤ self.new.spare) }
        ensures fresh { OnOk result (self.new.slots + n ≤ length self.new.entries + self.new.spare) }
        ensures more { self.old.spare ≤ self.new.spare }
    {
        if n > MOST_NODES - self.nodes.len() {
            return Err(AllocError);
        }
        self.nodes.reserve(n)
    }

    /// The number of items.
    pub fn len(&self) -> usize
        ensures value { result ≡ length self.now.entries }
        ensures valid { IsChain self.now }
    {
        self.len
    }

    /// Whether there is no item.
    pub fn is_empty(&self) -> bool
        ensures { result ≡ (length self.now.entries == 0) }
    {
        self.len == 0
    }

    /// For how many further items there is room.
    pub fn spare(&self) -> usize
        ensures { result ≡ self.now.spare }
    {
        self.nodes.capacity().min(MOST_NODES) - self.len
    }

    /// How many handles there have been. They are the numbers below this one.
    pub fn slots(&self) -> u32
        ensures value { result ≡ self.now.slots }
        ensures past { (k : ℕ) → result ≤ k → find_item self.now.entries k ≡ None }
    {
        self.nodes.len() as u32
    }

    /// Whether there is room for an item under a handle that there has not been.
    pub fn has_new_handle(&self) -> bool
        ensures { IsTrue result ↔ HasNewHandle self.now }
    {
        self.nodes.len() < self.nodes.capacity().min(MOST_NODES)
    }

    /// Whether it is known that the handles rise along the list.
    pub fn is_in_order(&self) -> bool
        ensures { result ≡ self.now.in_order }
    {
        self.in_order
    }

    /// Whether the handle names an item of the chain.
    pub fn contains(&self, handle: Handle) -> bool
        ensures { IsTrue result ↔ HasHandle self.now.entries handle }
    {
        match self.nodes.get(handle.index() as usize) {
            Some(node) => node.item.is_some(),
            None => false,
        }
    }

    /// The item of the handle.
    pub fn get(&self, handle: Handle) -> &T
        requires { HasHandle self.now.entries handle }
        ensures { find_item self.now.entries handle ≡ Some result.now }
    {
        match &self.nodes[handle.index() as usize].item {
            Some(item) => item,
            None => unreachable!(),
        }
    }

    /// The handle of the first item.
    pub fn first(&self) -> Option<Handle>
        ensures { result ≡ first_handle self.now.entries }
    {
        at_link(self.first)
    }

    /// The handle of the last item.
    pub fn last(&self) -> Option<Handle>
        ensures { result ≡ last_handle self.now.entries }
    {
        at_link(self.last)
    }

    /// The handle of the item after this one.
    pub fn next(&self, handle: Handle) -> Option<Handle>
        requires { HasHandle self.now.entries handle }
        ensures { result ≡ next_handle self.now.entries handle }
    {
        at_link(self.nodes[handle.index() as usize].next)
    }

    /// The handle of the item before this one.
    pub fn prev(&self, handle: Handle) -> Option<Handle>
        requires { HasHandle self.now.entries handle }
        ensures { result ≡ prev_handle self.now.entries handle }
    {
        at_link(self.nodes[handle.index() as usize].prev)
    }

    /// Adds the item at the end, and answers its handle. It takes no memory. All other items stay under their handles.
    pub fn push_back(&mut self, item: T) -> Handle
        requires { 0 < self.old.spare }
        ensures entries { self.new.entries ≡ self.old.entries ++ record { handle = result; item = item } ∷ [] }
        ensures spare { self.new.spare + 1 ≡ self.old.spare }
        ensures free { find_item self.old.entries result ≡ None }
        ensures fresh { HasNewHandle self.old → (result ≡ self.old.slots) × (self.new.slots ≡ self.old.slots + 1) × (self.new.in_order ≡ self.old.in_order) }
        ensures again { self.old.slots ≡ length self.old.entries + self.old.spare → (result < self.old.slots) × (self.new.slots ≡ self.old.slots) }
    {
        if self.has_new_handle() {
            self.push_new(item)
        } else {
            self.push_again(item)
        }
    }

    // Adds the item in a new node.
    fn push_new(&mut self, item: T) -> Handle
        requires { HasNewHandle self.old }
        ensures entries { self.new.entries ≡ self.old.entries ++ record { handle = result; item = item } ∷ [] }
        ensures spare { self.new.spare + 1 ≡ self.old.spare }
        ensures free { find_item self.old.entries result ≡ None }
        ensures handle { result ≡ self.old.slots }
        ensures slots { self.new.slots ≡ self.old.slots + 1 }
        ensures in_order { self.new.in_order ≡ self.old.in_order }
    {
        let index = self.nodes.len() as u32;
        let _ = self.nodes.capacity();
        let last = self.last;
        self.first = set_next(&mut self.nodes, self.first, last, index);
        self.nodes.push_reserved(Node {
            item: Some(item),
            prev: last,
            next: END,
        });
        self.last = index;
        self.len += 1;
        Handle::new(index)
    }

    // Adds the item in the node that was freed last.
    fn push_again(&mut self, item: T) -> Handle
        requires { length self.old.entries < self.old.slots }
        ensures entries { self.new.entries ≡ self.old.entries ++ record { handle = result; item = item } ∷ [] }
        ensures spare { self.new.spare + 1 ≡ self.old.spare }
        ensures free { find_item self.old.entries result ≡ None }
        ensures handle { result < self.old.slots }
        ensures slots { self.new.slots ≡ self.old.slots }
    {
        let index = self.free;
        let last = self.last;
        self.free = fill(&mut self.nodes, index, last, item);
        self.first = set_next(&mut self.nodes, self.first, last, index);
        self.last = index;
        self.len += 1;
        self.in_order = false;
        Handle::new(index)
    }

    /// Takes the item away. It takes no memory. All other items stay under their handles.
    pub fn remove(&mut self, handle: Handle) -> T
        requires { HasHandle self.old.entries handle }
        ensures value { find_item self.old.entries handle ≡ Some result }
        ensures entries { self.new.entries ≡ without self.old.entries handle }
        ensures spare { self.new.spare ≡ self.old.spare + 1 }
        ensures slots { self.new.slots ≡ self.old.slots }
        ensures in_order { self.new.in_order ≡ self.old.in_order }
    {
        let index = handle.index();
        let (item, prev, next) = take_out(&mut self.nodes, index, self.free);
        self.first = set_next(&mut self.nodes, self.first, prev, next);
        self.last = set_prev(&mut self.nodes, self.last, next, prev);
        self.free = index;
        self.len -= 1;
        item
    }

    /// The handle of this number, or `None` if no item has it.
    pub fn find(&self, index: u32) -> Option<Handle>
        ensures some { IfSome result (λ h. (h ≡ index) × HasHandle self.now.entries h) }
        ensures none { IfNone result (find_item self.now.entries index ≡ None) }
    {
        let handle = Handle::new(index);
        if self.contains(handle) {
            Some(handle)
        } else {
            None
        }
    }

    /// The least handle that is this number or above it, or `None` if there is none.
    pub fn find_from(&self, index: u32) -> Option<Handle>
        ensures some { IfSome result (λ h. (index ≤ h) × HasHandle self.now.entries h × ((k : ℕ) → index ≤ k → k < h → find_item self.now.entries k ≡ None)) }
        ensures none { IfNone result ((k : ℕ) → index ≤ k → find_item self.now.entries k ≡ None) }
    {
        for at in index..self.slots() {
            if self.contains(Handle::new(at)) {
                return Some(Handle::new(at));
            }
        }
        None
    }

    /// The items with their handles, in their order.
    pub fn iter(&self) -> ChainIter<'_, T>
        ensures { result ≡ self.now.entries }
    {
        ChainIter {
            nodes: self.nodes.as_slice(),
            at: self.first,
            left: self.len,
        }
    }
}
