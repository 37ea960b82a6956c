//! How far the search at a variable has come.
//!
//! An entry takes clauses away, and at a variable that many clauses have the next entry is mostly found right behind the last one: a
//! unit clause subsumes or strengthens each of the others, one by one. To begin each search at the first clause would take the time of
//! all clauses for each entry. So whoever searches at a variable again and again keeps what the searches have passed: each finder
//! begins there, and leaves the place of what it found, or that there is nothing. What was passed stays so as long as clauses only go;
//! where a new clause comes to the variable, all is to be looked at again.
ghost use Rattle.std.specs.Prelude.{◌≡◌, ℕ, List};
ghost use Rattle.cp_logic.specs.declared.named.Named.{Named};
ghost use Rattle.cp_logic.specs.Clauses.{has_variable};
ghost use Rattle.cp_logic.specs.Entries.{numbered};
ghost use Rattle.cp_logic.specs.Locality.{after};
ghost use Rattle.cp_logic.specs.Views.{entry_of};
ghost use Rattle.cp_find.specs.Past.{IsPast, first_other};

use crate::lookup::Lookup;
use cp_logic::{Clause, Entry};
use std::alloc::Global;

/// What the searches at a variable have passed. No clause with a number below that of `tautology` is one, and no pair of clauses
/// before that of `subsumption` or `strengthening` gives an entry of this kind; where it is `None`, nothing of the kind is left. The
/// lookup, where one was made, has each of the clauses that are left.
#[derive(Drop)]
pub struct Reached {
    pub(crate) tautology: Option<u64>,
    pub(crate) subsumption: Option<Pair>,
    pub(crate) strengthening: Option<Pair>,
    pub(crate) lookup: Lookup,
}

/// The numbers of two clauses, of which the first takes away the other or a literal of it. Pairs are ordered by the first number, and
/// then the second.
#[derive(Clone, Copy)]
pub(crate) struct Pair {
    pub(crate) by: u64,
    pub(crate) other: u64,
}

impl Pair {
    /// The number of the first clause that isn't passed as the other one, beside the first one of this number.
    pub(crate) fn first_other(&self, by: u64) -> u64
        ensures { result ≡ first_other self.now by }
    {
        if by == self.by { self.other } else { 0 }
    }
}

impl Reached {
    /// Nothing is passed yet. This holds of all clauses. It takes no memory.
    pub fn start(alloc: Global) -> Reached
        ensures { (x : ℕ) (cs : List Named) → IsPast x cs result }
    {
        let first = Pair { by: 0, other: 0 };
        Reached {
            tautology: Some(0),
            subsumption: Some(first),
            strengthening: Some(first),
            lookup: Lookup::none(alloc),
        }
    }

    /// Nothing is passed any more. The memory is kept for the searches to come.
    pub fn restart(&mut self)
        ensures { (x : ℕ) (cs : List Named) → IsPast x cs self.new }
    {
        let first = Pair { by: 0, other: 0 };
        self.tautology = Some(0);
        self.subsumption = Some(first);
        self.strengthening = Some(first);
        self.lookup.forget();
    }

    /// What is passed once the entry, which was found at the variable, is applied, whatever numbers its new clauses get.
    pub fn follow(&mut self, entry: &Entry, var: u32)
        ensures { (cs : List Named) (next : ℕ) → IsPast var cs self.old → IsPast var (after cs var (numbered next (entry_of entry.now))) self.new }
    {
        let keeps = match entry {
            Entry::Taut { .. } | Entry::Subsume { .. } | Entry::Block { .. } => true,
            Entry::Strengthen { new, .. } => !has_variable(&new.clause, var),
            Entry::Eliminate { .. } | Entry::Look { .. } => false,
        };
        if !keeps {
            self.restart();
        }
    }
}

// Whether the clause has the variable.
fn has_variable(clause: &Clause, var: u32) -> bool
    ensures { result ≡ has_variable var clause.now }
{
    clause.lits().iter().any(|lit| lit.var() == var)
}
