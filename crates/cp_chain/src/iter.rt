//! Iterators over the items of a chain.
ghost use Rattle.std.specs.Iterator.{YieldsFirstBy, item_count};
ghost use Rattle.cp_chain.specs.Items.{entry_item};

use crate::handle::Handle;
use crate::node::Node;
use std::marker::Model;

/// The items of a chain with their handles, in their order, seen as the list of those that are left.
#[derive(Drop)]
pub struct ChainIter<'a, T> {
    pub(crate) nodes: &'a [Node<T>],
    pub(crate) at: u32,
    pub(crate) left: usize,
}

impl<'a, T> Model for ChainIter<'a, T> {
    ghost use Rattle.std.specs.Prelude.{List};
    ghost use Rattle.std.specs.Coded.{coded_list};
    ghost use Rattle.cp_chain.specs.Chains.{Entry, entry_code};

    ghost Value = { List (Entry T) };

    ghost coded = { coded_list (entry_code T.code) };

    ghost use Rattle.cp_chain.specs.Nodes.{walk, IsAhead};

    ghost view = { λ it. walk it.nodes.now it.left it.at };

    ghost invariant = { λ it. IsAhead it.nodes.now it.at it.left };
}

impl<'a, T> Iterator for ChainIter<'a, T> {
    type Item = (Handle, &'a T);

    ghost next_gives = { YieldsFirstBy entry_item (λ rest. rest) };

    ghost remaining = { item_count (λ rest. rest) };

    fn next(&mut self) -> Option<(Handle, &'a T)> {
        if self.left == 0 {
            return None;
        }
        let at = self.at;
        let node = self.nodes.get(at as usize)?;
        let item = node.item.as_ref()?;
        self.at = node.next;
        self.left -= 1;
        Some((Handle::new(at), item))
    }
}
