//! What lies in the slots of a yard, and what its seats know.

use cp_book::Book;
use cp_occ::Cell;

/// What lies in a slot: in that of a variable its cell, in that of the turn the book, and nothing in either while it is out.
#[derive(Drop)]
pub(crate) enum Item {
    OfVariable(Cell),
    OfTurn(Book),
    Nothing,
}
