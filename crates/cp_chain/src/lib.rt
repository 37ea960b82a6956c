//! A doubly linked list by index: its nodes stand in one vector, and a freed node is used again.
//!
//! A layer above may rely on this: a `Chain` is a list of items under distinct handles. A handle stays with its item until the item
//! is removed, whatever else comes or goes. Only `reserve` takes memory.
#![tactic(auto)]

mod chain;
mod handle;
mod iter;
mod node;
#[cfg(test)]
mod tests;

pub use chain::Chain;
pub use handle::Handle;
pub use iter::ChainIter;
