//! The refusals of a post.

use cp_logic::Entry;

/// Why an entry was not posted. Each hands the entry back. They come in this order.
#[derive(Drop)]
pub enum PostAnswer {
    /// A current clause is empty; `empty` is the least number of one.
    Refuted { empty: u64, entry: Entry },
    /// The commits number the budget, which isn't 0; `len` is that number.
    Spent { len: u64, entry: Entry },
    /// The entry's new clauses, numbered from `next` on, would pass the last clause number.
    Numbers { next: u64, entry: Entry },
}
