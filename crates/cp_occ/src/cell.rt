//! Cells: the clauses of one variable.
ghost use Rattle.std.specs.Prelude.{◌≡◌, ◌≢◌, ◌≤◌, ◌<◌, ◌+◌, ◌==◌, ℕ, [], ◌∷◌, ◌++◌, length, slice_get, slice_index_or, if◌then◌else◌, IsTrue, OnOk, IfOk, IfSome, IfNone, None};
ghost use Rattle.std.specs.List.{All, find, list_any};
ghost use Rattle.std.specs.Option.{option_map};
ghost use Rattle.cp_logic.specs.Literals.{positive, negative};
ghost use Rattle.cp_logic.specs.Clauses.{has_variable, is_tautology, IsAscending};
ghost use Rattle.cp_logic.specs.Formulas.{numbers_of, find_number, without_number};
ghost use Rattle.cp_logic.specs.Legality.{clauses_with, first_in};
ghost use Rattle.cp_logic.specs.Items.{named_item};
ghost use Rattle.cp_occ.specs.Cells.{from_number};
ghost use Rattle.cp_occ.specs.Silence.{GivesNothing};

use crate::iter::{CellIter, LiteralIter, Occurrences};
use crate::occurrence::Occurrence;
use crate::place::Place;
use crate::silence::Searched;
use cp_logic::{Clause, Lit, Rules};
use std::alloc::{AllocError, Global};
use std::marker::Model;

/// A variable and the clauses that have it, with their numbers, by ascending number.
///
/// What applies at a variable is decided by its clauses. So a cell keeps by which rules a search of it gave nothing, until a clause comes
/// or goes, and whoever has the cell next needn't search it again. It counts its tautologies, and an occurrence tells the side of its
/// clause, so neither a test for tautologies nor one for a sign reads a clause.
#[derive(Drop)]
pub struct Cell {
    var: u32,
    occurrences: Vec<Occurrence>,
    tautologies: usize,
    silent: Option<Searched>,
}

impl Model for Cell {
    ghost use Rattle.std.specs.Prelude.{◌≡◌, ◌-◌, length, vec_len, vec_capacity};
    ghost use Rattle.cp_occ.specs.Cells.{CellView, IsListed, tautologies_of};
    ghost use Rattle.cp_occ.specs.Silence.{IsSilent};

    ghost Value = { CellView };

    ghost view = { λ c. record {
      variable = c.var;
      clauses = c.occurrences.items;
      spare = vec_capacity c.occurrences - vec_len c.occurrences;
    } };

    ghost invariant = { λ c. IsListed c.var c.occurrences.items × IsSilent c.var c.occurrences.items c.silent × (c.tautologies ≡ length (tautologies_of c.occurrences.items)) };
}

impl Cell {
    ghost use Rattle.cp_occ.specs.Cells.{IsCell};

    /// The cell of the variable, with no clause. It takes no memory.
    pub fn new(alloc: Global, var: u32) -> Cell
        requires low { 1 ≤ var }
        requires high { var ≤ 2000000 }
        ensures variable { result.variable ≡ var }
        ensures clauses { result.clauses ≡ [] }
    {
        Cell {
            var,
            occurrences: Vec::new(alloc),
            tautologies: 0,
            silent: None,
        }
    }

    // The cell of the variable, with no clause, and with room for just `n`.
    pub(crate) fn with_room(alloc: Global, var: u32, n: usize) -> Result<Cell, AllocError>
        requires low { 1 ≤ var }
        requires high { var ≤ 2000000 }
        ensures variable { IfOk result (λ c. c.variable ≡ var) }
        ensures clauses { IfOk result (λ c. c.clauses ≡ []) }
    {
        let occurrences = Vec::with_capacity(alloc, n)?;
        Ok(Cell {
            var,
            occurrences,
            tautologies: 0,
            silent: None,
        })
    }

    /// The variable. It is 1 to 2,000,000, the numbers of the clauses rise, and each clause has the variable.
    pub fn var(&self) -> u32
        ensures value { result ≡ self.now.variable }
        ensures valid { IsCell self.now }
    {
        self.var
    }

    /// The number of clauses.
    pub fn len(&self) -> usize
        ensures { result ≡ length self.now.clauses }
    {
        self.occurrences.len()
    }

    /// Whether there is no clause.
    pub fn is_empty(&self) -> bool
        ensures { result ≡ (length self.now.clauses == 0) }
    {
        self.occurrences.is_empty()
    }

    /// The clauses with their numbers, by ascending number.
    pub fn iter(&self) -> CellIter<'_>
        ensures { result ≡ self.now.clauses }
    {
        CellIter {
            left: self.occurrences.as_slice(),
        }
    }

    /// What is kept of the clauses, by ascending number.
    pub fn occurrences(&self) -> Occurrences<'_>
        ensures { result ≡ self.now.clauses }
    {
        Occurrences {
            left: self.occurrences.as_slice(),
        }
    }

    /// What is kept of the clauses whose numbers are this one or above it, by ascending number. The first is found by a binary search.
    pub fn occurrences_from(&self, number: u64) -> Occurrences<'_>
        ensures { result ≡ from_number number self.now.clauses }
    {
        Occurrences {
            left: occurrences_from(self.occurrences.as_slice(), number),
        }
    }

    /// The clauses whose numbers are this one or above it, with their numbers, by ascending number. The first is found by a binary search.
    pub fn iter_from(&self, number: u64) -> CellIter<'_>
        ensures { result ≡ from_number number self.now.clauses }
    {
        CellIter {
            left: occurrences_from(self.occurrences.as_slice(), number),
        }
    }

    /// The clauses with the variable itself, with their numbers, by ascending number.
    pub fn pos(&self) -> LiteralIter<'_>
        ensures { result ≡ clauses_with self.now.clauses (positive self.now.variable) }
    {
        LiteralIter {
            left: self.occurrences.as_slice(),
            lit: Lit::new(self.var, true),
        }
    }

    /// The clauses with the variable's negation, with their numbers, by ascending number.
    pub fn neg(&self) -> LiteralIter<'_>
        ensures { result ≡ clauses_with self.now.clauses (negative self.now.variable) }
    {
        LiteralIter {
            left: self.occurrences.as_slice(),
            lit: Lit::new(self.var, false),
        }
    }

    /// Whether a clause is a tautology. It takes no time.
    pub fn has_tautology(&self) -> bool
        ensures { result ≡ list_any (λ c. is_tautology c.clause) self.now.clauses }
    {
        self.tautologies > 0
    }

    /// The tautology of the least number that is this one or above it, with its number, or `None` if there is none. No clause is read.
    pub fn first_tautology_from(&self, number: u64) -> Option<(u64, &Clause)>
        ensures { option_map named_item result ≡ find (λ c. is_tautology c.clause) (from_number number self.now.clauses) }
    {
        if self.tautologies == 0 {
            return None;
        }
        self.iter_from(number).first_tautology()
    }

    /// Whether the cell keeps that a search by rules of this choice and bound gives nothing. `false` says nothing of a search.
    pub fn is_silent(&self, rules: &Rules) -> bool
        ensures { IsTrue result → GivesNothing self.now.variable self.now.clauses rules.now }
    {
        match self.silent {
            Some(searched) => searched.is_by(rules),
            None => false,
        }
    }

    /// Keeps that a search by these rules gives nothing, until a clause comes or goes.
    pub fn settle(&mut self, rules: &Rules)
        requires { (next : ℕ) × (first_in self.old.clauses rules.now next self.old.variable ≡ None) }
        ensures { self.new ≡ self.old }
    {
        self.silent = Some(Searched::by(rules));
    }

    /// The clause at the position from 0 on, with its number, or `None` past the last one.
    pub fn get(&self, i: usize) -> Option<(u64, &Clause)>
        ensures { option_map named_item result ≡ slice_get self.now.clauses i }
    {
        let found = self.occurrences.get(i)?;
        Some((found.number(), found.clause()))
    }

    /// Makes room for `n` further clauses. The error comes only for want of memory, and leaves the cell as it was.
    pub fn reserve(&mut self, n: usize) -> Result<(), AllocError>
        ensures variable { self.new.variable ≡ self.old.variable }
        ensures clauses { self.new.clauses ≡ self.old.clauses }
        ensures ok { OnOk result (n ≤ self.new.spare) }
        ensures more { self.old.spare ≤ self.new.spare }
    {
        self.occurrences.reserve(n)
    }

    /// Adds the clause at the end, where there is room. It takes no memory.
    pub fn insert(&mut self, number: u64, place: Place)
        requires room { 0 < self.old.spare }
        requires above { All (λ c. c.number < number) self.old.clauses }
        requires has { IsTrue (has_variable self.old.variable place) }
        ensures variable { self.new.variable ≡ self.old.variable }
        ensures clauses { self.new.clauses ≡ self.old.clauses ++ record { number = number; clause = place } ∷ [] }
        ensures spare { self.new.spare + 1 ≡ self.old.spare }
    {
        let _ = place.clause().lits();
        let _ = self.occurrences.capacity();
        self.silent = None;
        self.tautologies += one_if(place.is_tautology());
        self.occurrences
            .push_reserved(Occurrence::new(number, place, self.var));
    }

    /// Takes the clause away that stands under the number, or answers `None` where there is none. It takes no memory.
    pub fn remove(&mut self, number: u64) -> Option<Place>
        ensures value { result ≡ option_map (λ c. c.clause) (find_number self.old.clauses number) }
        ensures variable { self.new.variable ≡ self.old.variable }
        ensures clauses { self.new.clauses ≡ without_number self.old.clauses number }
        ensures spare { self.old.spare ≤ self.new.spare }
    {
        let at = position(self.occurrences.as_slice(), number)?;
        self.silent = None;
        let gone = self.occurrences.remove(at);
        self.tautologies -= one_if(gone.is_tautology());
        Some(gone.into_place())
    }
}

// 1 if so, else 0.
fn one_if(so: bool) -> usize
    ensures { result ≡ (if so then 1 else 0) }
{
    if so { 1 } else { 0 }
}

// Those of the occurrences whose numbers are this one or above it.
fn occurrences_from(occurrences: &[Occurrence], number: u64) -> &[Occurrence]
    requires { IsAscending (numbers_of occurrences.now) }
    ensures { result.now ≡ from_number number occurrences.now }
{
    if number == 0 {
        return occurrences;
    }
    let at = occurrences.partition_point(|occurrence| occurrence.number() < number);
    let (_, left) = occurrences.split_at(at);
    left
}

// The position of the clause under the number, if there is one.
fn position(occurrences: &[Occurrence], number: u64) -> Option<usize>
    requires { IsAscending (numbers_of occurrences.now) }
    ensures some { IfSome result (λ i. (i < length occurrences.now) × ((d : _) → (slice_index_or occurrences.now i d).number ≡ number)) }
    ensures none { IfNone result (All (λ c. c.number ≢ number) occurrences.now) }
{
    occurrences
        .binary_search_by_key(&number, |occurrence| occurrence.number())
        .ok()
}
