//! Clauses that are shared, and for each variable the list of the clauses that have it.
//!
//! A layer above may rely on this: `Cells::of_formula` gives each variable's cell just the clauses that have it, and `apply` leaves
//! in each cell what `specs/Changes` says of the entry (`lists_after`); all its memory is taken by `prepare`.
#![tactic(auto)]

mod against;
mod bits;
mod cell;
mod cells;
mod changes;
mod filling;
mod iter;
mod lent;
mod occurrence;
mod place;
mod sides;
mod silence;
#[cfg(test)]
mod tests;
mod variables;

pub use against::Against;
pub use cell::Cell;
pub use cells::Cells;
pub use changes::Prepared;
pub use iter::{CellIter, LiteralIter, Occurrences};
pub use lent::Lent;
pub use occurrence::Occurrence;
pub use place::Place;
pub use sides::Sides;

// Places and cells may be shared by threads and moved between them.
fn may_cross_threads<T: Send + Sync>() {}

pub(crate) fn cross_threads() {
    may_cross_threads::<Place>();
    may_cross_threads::<Cell>();
}
