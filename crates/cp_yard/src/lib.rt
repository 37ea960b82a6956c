//! The yard: the cells of the variables behind a lock each, and the book behind a turn, shared by seats in threads.
//!
//! A `Seat` tries a lock, or the turn, by one exchange, and no call waits. It changes the journal only by the end of a turn
//! with one post more, of variables whose locks it holds. So a layer above may rely on this, whatever the order of the seats'
//! steps (`specs/Rule.antt`): there is one journal, which is legal from the book's first formula; a cell that is got has the
//! variable's clauses after it, and stays so until this seat's own post; the posts of each seat's number are those of the
//! journal; and whom a try met is another seat, which got that lock or the turn. `close` gives the book, its cells and that account.
#![tactic(auto)]

mod item;
mod places;
mod plays;
mod seat;
#[cfg(test)]
mod tests;
mod view;
mod yard;

pub use seat::{Record, Seat};
pub use yard::{Ground, Held, Receipt, Yard};

// Seats may be moved between threads, and a yard may be shared by them.
fn may_move<T: Send>() {}

fn may_be_shared<T: Sync>() {}

pub(crate) fn cross_threads() {
    may_move::<Seat>();
    may_be_shared::<Yard>();
}
