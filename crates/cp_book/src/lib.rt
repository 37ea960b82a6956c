//! The book: the one place through which every change of the clauses goes.
//!
//! A `Book` begins with a formula and the rules of a run. It takes an entry that is legal in the current clauses, as the caller
//! shows, appends it to its journal, and changes the clauses as the entry says. So a layer above may rely on this: the journal
//! of a book is legal from its first formula, and the current clauses and the stack are what the posts lead to.
#![tactic(auto)]

mod answers;
mod book;
mod changes;
mod numbers;
#[cfg(test)]
mod tests;

pub use answers::PostAnswer;
pub use book::Book;
pub use numbers::Numbers;
