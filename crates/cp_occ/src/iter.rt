//! Iterators over the clauses of a cell.
ghost use Rattle.std.specs.Prelude.{◌≡◌, [], ◌∷◌, IfOk, IfSome, IfNone};
ghost use Rattle.std.specs.Iterator.{YieldsFirstBy, item_count};
ghost use Rattle.std.specs.List.{find};
ghost use Rattle.std.specs.Option.{option_map};
ghost use Rattle.cp_logic.specs.Clauses.{is_tautology};
ghost use Rattle.cp_logic.specs.Items.{named_item};

use crate::lent::Lent;
use crate::occurrence::Occurrence;
use cp_logic::{Clause, Lit};
use std::alloc::{AllocError, Global};
use std::marker::Model;

/// The clauses of a cell with their numbers, by ascending number, seen as the list of those that are left.
#[derive(Drop)]
pub struct CellIter<'a> {
    pub(crate) left: &'a [Occurrence],
}

impl<'a> Model for CellIter<'a> {
    ghost use Rattle.std.specs.Prelude.{List};
    ghost use Rattle.cp_logic.specs.declared.named.Named.{Named};

    ghost Value = { List Named };

    ghost view = { λ it. it.left.now };
}

impl<'a> CellIter<'a> {
    // The first tautology, or `None` if none is left. No clause is read.
    pub(crate) fn first_tautology(self) -> Option<(u64, &'a Clause)>
        ensures { option_map named_item result ≡ find (λ c. is_tautology c.clause) self.entry }
    {
        let mut left = self.left;
        while let Some((first, rest)) = left.split_first() {
            if first.is_tautology() {
                return Some((first.number(), first.clause()));
            }
            left = rest;
        }
        None
    }
}

impl<'a> Iterator for CellIter<'a> {
    type Item = (u64, &'a Clause);

    ghost next_gives = { YieldsFirstBy named_item (λ rest. rest) };

    ghost remaining = { item_count (λ rest. rest) };

    fn next(&mut self) -> Option<(u64, &'a Clause)> {
        let (first, rest) = self.left.split_first()?;
        self.left = rest;
        Some((first.number(), first.clause()))
    }
}

/// What a cell keeps of its clauses, by ascending number, seen as the list of those that are left.
#[derive(Drop)]
pub struct Occurrences<'a> {
    pub(crate) left: &'a [Occurrence],
}

impl<'a> Model for Occurrences<'a> {
    ghost use Rattle.std.specs.Prelude.{List};
    ghost use Rattle.cp_logic.specs.declared.named.Named.{Named};

    ghost Value = { List Named };

    ghost view = { λ it. it.left.now };
}

impl<'a> Iterator for Occurrences<'a> {
    type Item = &'a Occurrence;

    ghost next_gives = { YieldsFirstBy (λ occurrence. occurrence.now) (λ rest. rest) };

    ghost remaining = { item_count (λ rest. rest) };

    fn next(&mut self) -> Option<&'a Occurrence> {
        let (first, rest) = self.left.split_first()?;
        self.left = rest;
        Some(first)
    }
}

/// The clauses of a cell that have a literal, with their numbers, by ascending number, seen as the list of those that are left.
#[derive(Drop)]
pub struct LiteralIter<'a> {
    pub(crate) left: &'a [Occurrence],
    pub(crate) lit: Lit,
}

impl<'a> Model for LiteralIter<'a> {
    ghost use Rattle.std.specs.Prelude.{List};
    ghost use Rattle.cp_logic.specs.declared.named.Named.{Named};
    ghost use Rattle.cp_logic.specs.Legality.{clauses_with};

    ghost Value = { List Named };

    ghost view = { λ it. clauses_with it.left.now it.lit };
}

impl<'a> LiteralIter<'a> {
    /// The clauses that are left, in their order. The error comes only for want of memory.
    pub fn gathered(self, alloc: Global) -> Result<Vec<Lent<'a>>, AllocError>
        ensures { IfOk result (λ list. list.items ≡ self.entry) }
    {
        let mut left = self;
        let mut list = Vec::with_capacity(alloc, left.left.len())?;
        while let Some(occurrence) = left.next_occurrence() {
            list.push(Lent::new(occurrence))?;
        }
        Ok(list)
    }

    // The occurrence of the next clause that has the literal.
    fn next_occurrence(&mut self) -> Option<&'a Occurrence>
        ensures some { IfSome result (λ o. self.old ≡ o.now ∷ self.new) }
        ensures none { IfNone result (self.old ≡ []) }
        ensures left { IfNone result (self.new ≡ []) }
    {
        while let Some((first, rest)) = self.left.split_first() {
            self.left = rest;
            if first.has(self.lit) {
                return Some(first);
            }
        }
        None
    }
}

impl<'a> Iterator for LiteralIter<'a> {
    type Item = (u64, &'a Clause);

    ghost next_gives = { YieldsFirstBy named_item (λ rest. rest) };

    ghost remaining = { item_count (λ rest. rest) };

    fn next(&mut self) -> Option<(u64, &'a Clause)> {
        let found = self.next_occurrence()?;
        Some((found.number(), found.clause()))
    }
}
