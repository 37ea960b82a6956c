//! Handles: by which the items of a chain are named.
ghost use Rattle.std.specs.Prelude.{◌≡◌};
ghost use Rattle.cp_chain.specs.Nodes.{link_handle};

use crate::node::END;
use std::marker::Model;

/// The name of an item in its chain, seen as a number. It stays with the item until the item is removed.
#[derive(Clone, Copy, PartialEq, Eq, Debug)]
pub struct Handle {
    index: u32,
}

impl Model for Handle {
    ghost use Rattle.std.specs.Prelude.{ℕ};

    ghost Value = { ℕ };

    ghost view = { λ h. h.index };

    ghost inverse = { λ n. record { index = n } };
}

impl Handle {
    pub(crate) fn new(index: u32) -> Handle
        ensures { result ≡ index }
    {
        Handle { index }
    }

    /// The number of the node, from 0 on.
    pub fn index(self) -> u32
        ensures { result ≡ self }
    {
        self.index
    }
}

// The handle that a link names.
pub(crate) fn at_link(link: u32) -> Option<Handle>
    ensures { result ≡ link_handle link }
{
    if link == END {
        None
    } else {
        Some(Handle::new(link))
    }
}
