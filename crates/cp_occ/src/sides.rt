//! The clauses of a cell by the sign of its variable.
ghost use Rattle.std.specs.Prelude.{◌≡◌, IfOk};
ghost use Rattle.cp_logic.specs.Literals.{positive, negative};
ghost use Rattle.cp_logic.specs.Legality.{clauses_with};

use crate::cell::Cell;
use crate::lent::Lent;
use std::alloc::{AllocError, Global};
use std::marker::Model;

/// A cell, seen as it is, with a list of its clauses that have the variable and one of those that have its negation. They are listed
/// once for a search, so that no clause is passed over again for each other one.
#[derive(Drop)]
pub struct Sides<'a> {
    cell: &'a Cell,
    pos: Vec<Lent<'a>>,
    neg: Vec<Lent<'a>>,
}

impl<'a> Model for Sides<'a> {
    ghost use Rattle.cp_occ.specs.Cells.{CellView};
    ghost use Rattle.cp_occ.specs.Sides.{AreSides};

    ghost Value = { CellView };

    ghost view = { λ s. s.cell.now };

    ghost invariant = { λ s. AreSides s.cell.now s.pos.items s.neg.items };
}

impl<'a> Sides<'a> {
    /// The cell with its clauses by their sign. The error comes only for want of memory.
    pub fn of(alloc: Global, cell: &'a Cell) -> Result<Sides<'a>, AllocError>
        ensures { IfOk result (λ s. s ≡ cell.now) }
    {
        let pos = cell.pos().gathered(alloc)?;
        let neg = cell.neg().gathered(alloc)?;
        Ok(Sides { cell, pos, neg })
    }

    /// The cell.
    pub fn cell(&self) -> &'a Cell
        ensures { result.now ≡ self.now }
    {
        self.cell
    }

    /// The clauses with the variable, by ascending number.
    pub fn pos(&self) -> &[Lent<'a>]
        ensures { result.now ≡ clauses_with self.now.clauses (positive self.now.variable) }
    {
        &self.pos
    }

    /// The clauses with the variable's negation, by ascending number.
    pub fn neg(&self) -> &[Lent<'a>]
        ensures { result.now ≡ clauses_with self.now.clauses (negative self.now.variable) }
    {
        &self.neg
    }
}
