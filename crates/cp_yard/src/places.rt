//! What goes into the slots of a yard when it is made, and comes out of them when it is closed.
ghost use Rattle.std.specs.Prelude.{◌≡◌, ℕ, ◌+◌, ◌<◌, ◌≤◌, ◌^◌, false, [], ◌∷◌, map, length, replicate, IfOk, OnOk, IsTrue, slice_index_or, slice_set};
ghost use Rattle.std.specs.Slots.{slots_items, slots_filled, slots_len};
ghost use mathlib.Core.Option.{some};
ghost use lib.ListN.{get_elem?};
ghost use Rattle.cp_book.specs.Views.{BookView};
ghost use Rattle.cp_occ.specs.Cells.{CellView};
ghost use Rattle.cp_yard.specs.declared.item.Item.TheVariants.{OfVariable, OfTurn};

use crate::item::Item;
use atomic_table::Closed;
use cp_book::Book;
use cp_occ::{Cell, Cells};
use std::alloc::{AllocError, Global};

// So many zeros.
pub(crate) fn zeros(alloc: Global, count: usize) -> Result<Vec<u64>, AllocError>
    ensures { IfOk result (λ v. v.items ≡ replicate count 0) }
{
    let mut words = Vec::new(alloc);
    words.resize(count, 0)?;
    Ok(words)
}

// The book and then the cells, which are taken out of their list.
pub(crate) fn items_of(
    alloc: Global,
    book: Book,
    cells: &mut Cells,
) -> Result<Vec<Item>, AllocError>
    requires few { length cells.old.items < 2 ^ 32 }
    ensures items { IfOk result (λ v. v.items ≡ OfTurn book ∷ map (λ c. OfVariable c) cells.old.items) }
    ensures empty { OnOk result (cells.new.items ≡ []) }
    ensures room { OnOk result (length cells.old.items ≤ cells.new.spare) }
{
    let mut items = Vec::with_capacity(alloc, cells.len() + 1)?;
    while let Some(cell) = cells.pop() {
        items.push(Item::OfVariable(cell))?;
    }
    items.push(Item::OfTurn(book))?;
    items.reverse();
    Ok(items)
}

// The book, out of its slot.
pub(crate) fn take_book(closed: &mut Closed<Item, Global>) -> Book
    requires full { (0 < slots_len closed.old.slots) × IsTrue (slice_index_or (slots_filled closed.old.slots) 0 false) }
    requires book { (b : BookView) × (get_elem? (slots_items closed.old.slots) 0 ≡ some (OfTurn b)) }
    ensures book { get_elem? (slots_items closed.old.slots) 0 ≡ some (OfTurn result) }
    ensures others { (slots_items closed.new.slots ≡ slots_items closed.old.slots) × (slots_filled closed.new.slots ≡ slice_set (slots_filled closed.old.slots) 0 false) × (slots_len closed.new.slots ≡ slots_len closed.old.slots) × (closed.new.words ≡ closed.old.words) }
{
    match closed.take(0) {
        Item::OfTurn(book) => book,
        _ => unreachable!(),
    }
}

// The cell of the variable, out of its slot.
pub(crate) fn take_cell(closed: &mut Closed<Item, Global>, x: usize) -> Cell
    requires full { (x < slots_len closed.old.slots) × IsTrue (slice_index_or (slots_filled closed.old.slots) x false) }
    requires cell { (c : CellView) × (get_elem? (slots_items closed.old.slots) x ≡ some (OfVariable c)) }
    ensures cell { get_elem? (slots_items closed.old.slots) x ≡ some (OfVariable result) }
    ensures others { (slots_items closed.new.slots ≡ slots_items closed.old.slots) × (slots_filled closed.new.slots ≡ slice_set (slots_filled closed.old.slots) x false) × (slots_len closed.new.slots ≡ slots_len closed.old.slots) × (closed.new.words ≡ closed.old.words) }
{
    match closed.take(x) {
        Item::OfVariable(cell) => cell,
        _ => unreachable!(),
    }
}
