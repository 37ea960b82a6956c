//! A hood, whose cells a seat has under their locks.
ghost use Rattle.std.specs.Prelude.{◌≡◌, ℕ, None, OnOk, IfOk};
ghost use Rattle.cp_logic.specs.declared.settings.Rules.{Rules};
ghost use Rattle.cp_logic.specs.Legality.{first_in};
ghost use Rattle.cp_logic.specs.Views.{entry_of};
ghost use Rattle.cp_occ.specs.Changes.{places_of, HasRoom, IsChange};
ghost use Rattle.cp_yard.specs.Views.{SeatView};
ghost use Rattle.cp_hood.specs.Hoods.{centre_clauses, HoldsJust, IsHood, IsLegalAt};
ghost use Rattle.cp_hood.specs.Commits.{IsHoodAfter, IsSameHood};
ghost use Rattle.cp_hood.specs.Ready.{IsReadyFor};

use crate::prepared::Prepared;
use cp_logic::{Entry, Rules};
use cp_occ::{Cell, Cells};
use std::alloc::{AllocError, Global};
use std::marker::Model;

/// The cells of a variable, the centre, and of its neighbours, upwards by variable. Its seat holds their locks.
#[derive(Drop)]
pub struct Hood {
    pub(crate) centre: u32,
    // The index of the centre's cell.
    pub(crate) at: usize,
    pub(crate) cells: Cells,
}

impl Model for Hood {
    ghost use Rattle.std.specs.Prelude.{◌≡◌, ◌<◌, length, slice_index_or};
    ghost use Rattle.cp_logic.specs.Clauses.{IsAscending};
    ghost use Rattle.cp_occ.specs.Cells.{variables_of};
    ghost use Rattle.cp_hood.specs.Hoods.{HoodView, Covers};

    ghost Value = { HoodView };

    ghost view = { λ h. record { centre = h.centre; cells = h.cells.items } };

    ghost invariant = { λ h.
        (h.at < length h.cells.items) × ((d : _) → (slice_index_or h.cells.items h.at d).variable ≡ h.centre)
        × IsAscending (variables_of h.cells.items) × Covers h.centre h.cells.items };
}

impl Hood {
    /// The cell of the centre: all clauses that have the variable.
    pub fn centre(&self) -> &Cell
        ensures variable { result.now.variable ≡ self.now.centre }
        ensures clauses { result.now.clauses ≡ centre_clauses self.now }
    {
        match self.cells.get(self.at) {
            Some(cell) => cell,
            None => unreachable!(),
        }
    }

    /// Keeps at the cell of the centre that a search of it by these rules gives nothing, until one of its clauses goes or a new one comes.
    pub fn settle(&mut self, rules: &Rules)
        requires { (next : ℕ) × (first_in (centre_clauses self.old) rules.now next self.old.centre ≡ None) }
        ensures { self.new ≡ self.old }
    {
        self.cells.settle(self.at, rules);
    }

    /// Takes all memory that the cells need for the entry, which fits at the centre: places of its new clauses, a second entry, and room
    /// in the cells of the new clauses' variables. The error comes only if memory is out. The cells list what they listed, also after an
    /// error.
    pub fn prepare(&mut self, alloc: Global, entry: &Entry) -> Result<Prepared, AllocError>
        requires legal { (rules : Rules) × IsLegalAt rules self.old (entry_of entry.now) }
        ensures same { IsSameHood self.old self.new }
        ensures holds { (v : SeatView) → HoldsJust v self.old.cells → HoldsJust v self.new.cells }
        ensures ready { IfOk result (IsReadyFor (entry_of entry.now)) }
        ensures room { OnOk result (HasRoom self.new.cells (entry_of entry.now)) }
    {
        let places = self.cells.prepare(alloc, entry)?;
        Prepared::new(alloc, places, entry)
    }

    // The cells follow the entry for which this was prepared: its new clauses come, and the clauses that it removes go.
    pub(crate) fn follow(&mut self, prepared: Prepared)
        requires change { IsChange self.old.cells (entry_of prepared.second) }
        requires ready { IsReadyFor (entry_of prepared.second) prepared }
        requires room { HasRoom self.old.cells (entry_of prepared.second) }
        ensures { IsHoodAfter (entry_of prepared.second) self.old self.new }
    {
        let Prepared { places, second } = prepared;
        self.cells.apply(&second, places);
    }

    // The cells are those of a hood.
    pub(crate) fn is_hood(&self)
        ensures { IsHood self.now }
    {
        let _ = &self.at;
    }
}
