//! Lists of cells: that of the variables of a formula.
ghost use Rattle.std.specs.Prelude.{◌≡◌, ◌+◌, ◌<◌, ◌≤◌, ◌==◌, ℕ, [], ◌∷◌, ◌++◌, length, slice_get, ◌↔◌, IsSome, OnOk, OnErr, IfOk, map, Some, None};
ghost use Rattle.std.specs.List.{range_with_len};
ghost use Rattle.std.specs.Option.{option_copied, option_map, option_to_list};
ghost use Rattle.std.specs.Borrow.{sem};
ghost use Rattle.std.specs.Slice.Iter.{iter_rest};
ghost use Rattle.cp_logic.specs.Formulas.{occurrences};
ghost use Rattle.cp_logic.specs.Legality.{first_in};
ghost use Rattle.cp_occ.specs.Cells.{CellView, variables_of, lists_of};

use crate::cell::Cell;
use crate::filling::{counts, empty_cells, enter};
use cp_logic::{Formula, Rules};
use std::alloc::{AllocError, Global};
use std::marker::Model;
use std::slice;

/// A list of cells, as that of the variables from 1 on, which keeps the room that was reserved.
#[derive(Drop)]
pub struct Cells {
    pub(crate) cells: Vec<Cell>,
}

impl Model for Cells {
    ghost use Rattle.std.specs.Prelude.{◌-◌, vec_len, vec_capacity};
    ghost use Rattle.cp_logic.specs.Lists.{Roomy};
    ghost use Rattle.cp_occ.specs.Cells.{CellView};

    ghost Value = { Roomy CellView };

    ghost view = { λ l. record { items = l.cells.items; spare = vec_capacity l.cells - vec_len l.cells } };
}

impl Cells {
    ghost use Rattle.cp_occ.specs.Lending.{LendsCell};

    /// The empty list. It takes no memory.
    pub fn new(alloc: Global) -> Self
        ensures { result.items ≡ [] }
    {
        Cells {
            cells: Vec::new(alloc),
        }
    }

    /// The cells of the variables from 1 to `formula.vars()`, each with the clauses that have its variable.
    /// The cells share the formula's clauses, and no literal is copied.
    pub fn of_formula(alloc: Global, formula: &Formula) -> Result<Cells, AllocError>
        ensures variables { IfOk result (λ l. variables_of l.items ≡ range_with_len 1 formula.now.formula.variables) }
        ensures clauses { IfOk result (λ l. lists_of l.items ≡ map (occurrences formula.now.formula.clauses) (range_with_len 1 formula.now.formula.variables)) }
    {
        let counted = counts(alloc, formula)?;
        let mut cells = empty_cells(alloc, formula.vars(), counted.as_slice())?;
        for (number, clause) in formula.iter() {
            enter(alloc, cells.as_mut_slice(), number, clause)?;
        }
        Ok(Cells { cells })
    }

    /// The number of cells.
    pub fn len(&self) -> usize
        ensures { result ≡ length self.now.items }
    {
        self.cells.len()
    }

    /// Whether there is no cell.
    pub fn is_empty(&self) -> bool
        ensures { result ≡ (length self.now.items == 0) }
    {
        self.cells.is_empty()
    }

    /// The cell at the position from 0 on, or `None` past the last one.
    pub fn get(&self, i: usize) -> Option<&Cell>
        ensures { option_copied result ≡ slice_get self.now.items i }
    {
        self.cells.get(i)
    }

    /// The cell at the position from 0 on, to be changed, or `None` past the last one. It takes no memory.
    pub fn get_mut(&mut self, i: usize) -> Option<&mut Cell>
        ensures* writes_back { sem 𝓛 (LendsCell self.entry i result) }
        ensures value { option_map (λ c. c.now) result ≡ slice_get self.old.items i }
    {
        self.cells.get_mut(i)
    }

    /// Keeps at the cell at the position from 0 on, if there is one, that a search of it by these rules gives nothing.
    pub fn settle(&mut self, i: usize, rules: &Rules)
        requires { (cell : CellView) → slice_get self.old.items i ≡ Some cell → (next : ℕ) × (first_in cell.clauses rules.now next cell.variable ≡ None) }
        ensures { self.new ≡ self.old }
    {
        if let Some(cell) = self.cells.get_mut(i) {
            cell.settle(rules);
        }
    }

    /// The cells in their order.
    pub fn iter(&self) -> slice::Iter<'_, Cell>
        ensures { iter_rest result ≡ self.now.items }
    {
        self.cells.iter()
    }

    /// Appends the cell. The error comes only for want of memory, and leaves the list as it was.
    pub fn push(&mut self, cell: Cell) -> Result<(), AllocError>
        ensures ok { OnOk result (self.new.items ≡ self.old.items ++ cell ∷ []) }
        ensures err { OnErr result (self.new.items ≡ self.old.items) }
    {
        self.cells.push(cell)?;
        Ok(())
    }

    /// Makes room for `n` further cells. The error comes only for want of memory, and leaves the list as it was.
    pub fn reserve(&mut self, n: usize) -> Result<(), AllocError>
        ensures items { self.new.items ≡ self.old.items }
        ensures ok { OnOk result (n ≤ self.new.spare) }
        ensures more { self.old.spare ≤ self.new.spare }
    {
        self.cells.reserve(n)
    }

    /// Appends the cell, where there is room. It takes no memory.
    pub fn push_reserved(&mut self, cell: Cell)
        requires { 0 < self.old.spare }
        ensures items { self.new.items ≡ self.old.items ++ cell ∷ [] }
        ensures spare { self.new.spare + 1 ≡ self.old.spare }
    {
        self.cells.push_reserved(cell);
    }

    /// Takes the last cell, or answers `None` where there is none. It takes no memory.
    pub fn pop(&mut self) -> Option<Cell>
        ensures items { self.old.items ≡ self.new.items ++ option_to_list result }
        ensures some { IsSome result ↔ (0 < length self.old.items) }
        ensures spare { self.new.spare ≡ self.old.spare + length (option_to_list result) }
    {
        self.cells.pop()
    }
}
