//! Nodes: an item with the numbers of its neighbours.
ghost use Rattle.std.specs.Prelude.{◌≡◌, ◌⊎◌, ◌==◌, ◌<◌, ◌≤◌, Some, None, IsSome, if◌then◌else◌, slice_get, slice_set, vec_len, vec_capacity};
ghost use Rattle.cp_chain.specs.Nodes.{with_next, with_prev, item_in, node};

use std::mem;

/// The link that names no node.
pub(crate) const END: u32 = u32::MAX;

/// An item with the numbers of its neighbours. A freed node keeps no item, and its `next` names the node freed before it.
#[derive(Drop)]
pub(crate) struct Node<T> {
    pub(crate) item: Option<T>,
    pub(crate) prev: u32,
    pub(crate) next: u32,
}

// Writes what follows a node, or answers it as the new first one if there is no such node.
pub(crate) fn set_next<T>(nodes: &mut Vec<Node<T>>, first: u32, at: u32, next: u32) -> u32
    requires few { vec_len nodes.old ≤ 4294967295 }
    requires known { at < vec_len nodes.old ⊎ (at ≡ 4294967295) }
    ensures first { result ≡ (if at == 4294967295 then next else first) }
    ensures nodes { nodes.new.items ≡ with_next nodes.old.items at next }
    ensures capacity { vec_capacity nodes.new ≡ vec_capacity nodes.old }
{
    if at == END {
        return next;
    }
    nodes[at as usize].next = next;
    first
}

// Writes what stands before a node, or answers it as the new last one if there is no such node.
pub(crate) fn set_prev<T>(nodes: &mut Vec<Node<T>>, last: u32, at: u32, prev: u32) -> u32
    requires few { vec_len nodes.old ≤ 4294967295 }
    requires known { at < vec_len nodes.old ⊎ (at ≡ 4294967295) }
    ensures last { result ≡ (if at == 4294967295 then prev else last) }
    ensures nodes { nodes.new.items ≡ with_prev nodes.old.items at prev }
    ensures capacity { vec_capacity nodes.new ≡ vec_capacity nodes.old }
{
    if at == END {
        return prev;
    }
    nodes[at as usize].prev = prev;
    last
}

// Takes the item out of a node, with the links of its neighbours, and frees the node before the one that was freed last.
pub(crate) fn take_out<T>(nodes: &mut Vec<Node<T>>, at: u32, free: u32) -> (T, u32, u32)
    requires { IsSome (item_in nodes.old.items at) }
    ensures was { slice_get nodes.old.items at ≡ Some (node (Some result.0) result.1 result.2) }
    ensures nodes { nodes.new.items ≡ slice_set nodes.old.items at (node None 4294967295 free) }
    ensures capacity { vec_capacity nodes.new ≡ vec_capacity nodes.old }
{
    let freed = Node {
        item: None,
        prev: END,
        next: free,
    };
    let Node {
        item: was,
        prev,
        next,
    } = mem::replace(&mut nodes[at as usize], freed);
    match was {
        Some(item) => (item, prev, next),
        None => unreachable!(),
    }
}

// Puts the item into the free node, after the last one, and answers the node that is free from now on.
pub(crate) fn fill<T>(nodes: &mut Vec<Node<T>>, at: u32, last: u32, item: T) -> u32
    requires free { item_in nodes.old.items at ≡ None }
    requires known { at < vec_len nodes.old }
    ensures was { (prev : _) × (slice_get nodes.old.items at ≡ Some (node None prev result)) }
    ensures nodes { nodes.new.items ≡ slice_set nodes.old.items at (node (Some item) last 4294967295) }
    ensures capacity { vec_capacity nodes.new ≡ vec_capacity nodes.old }
{
    let filled = Node {
        item: Some(item),
        prev: last,
        next: END,
    };
    let Node {
        item: was,
        prev: _,
        next,
    } = mem::replace(&mut nodes[at as usize], filled);
    match was {
        None => next,
        Some(_) => unreachable!(),
    }
}
