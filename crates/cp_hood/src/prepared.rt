//! What a hood makes ready for an entry before the turn is tried.
//!
//! Under the turn stands only what needs it: the entry's numbers, the book's reserve and the post. The journal keeps the entry itself, so
//! the cells, which follow it when the turn is given back, go by a second entry of the same clauses, which shares their literals.
ghost use Rattle.std.specs.Prelude.{◌≡◌, ◌+◌, ◌^◌, ◌≤◌, IfOk, length};
ghost use Rattle.cp_logic.specs.Entries.{new_clauses, numbered};
ghost use Rattle.cp_logic.specs.Views.{entry_of};
ghost use Rattle.cp_occ.specs.Changes.{places_of};
ghost use Rattle.cp_hood.specs.Ready.{IsReadyFor};

use cp_logic::{Entry, Named, NamedList};
use std::alloc::{AllocError, Global};

/// Places of the new clauses of an entry, and a second entry of the same clauses.
#[derive(Drop)]
pub struct Prepared {
    pub(crate) places: cp_occ::Prepared,
    pub(crate) second: Entry,
}

impl Prepared {
    // These places, with a second entry. The error comes only if memory is out.
    pub(crate) fn new(
        alloc: Global,
        places: cp_occ::Prepared,
        entry: &Entry,
    ) -> Result<Prepared, AllocError>
        requires { places ≡ places_of (entry_of entry.now) }
        ensures { IfOk result (IsReadyFor (entry_of entry.now)) }
    {
        let second = second_of(alloc, entry)?;
        Ok(Prepared { places, second })
    }

    // The same for the entry with its new clauses numbered from `next` on.
    pub(crate) fn numbered(self, next: u64) -> Prepared
        requires { next + length (new_clauses (entry_of self.second)) ≤ 2 ^ 64 }
        ensures places { result.places ≡ self.places }
        ensures second { entry_of result.second ≡ numbered next (entry_of self.second) }
    {
        Prepared {
            places: self.places,
            second: self.second.numbered(next),
        }
    }
}

// A second entry of the same clauses. The error comes only if memory is out.
fn second_of(alloc: Global, entry: &Entry) -> Result<Entry, AllocError>
    ensures { IfOk result (λ e. entry_of e ≡ entry_of entry.now) }
{
    Ok(match entry {
        Entry::Taut { gone } => Entry::Taut {
            gone: gone.again()?,
        },
        Entry::Subsume { by, gone } => Entry::Subsume {
            by: by.again()?,
            gone: gone.again()?,
        },
        Entry::Strengthen { by, on, lit, new } => Entry::Strengthen {
            by: by.again()?,
            on: on.again()?,
            lit: *lit,
            new: new.again()?,
        },
        Entry::Block { gone, lit } => Entry::Block {
            gone: gone.again()?,
            lit: *lit,
        },
        Entry::Eliminate { var, pos, neg, new } => Entry::Eliminate {
            var: *var,
            pos: second_list(alloc, pos.as_slice())?,
            neg: second_list(alloc, neg.as_slice())?,
            new: second_list(alloc, new.as_slice())?,
        },
        Entry::Look { var } => Entry::Look { var: *var },
    })
}

// A second list of the same clauses.
fn second_list(alloc: Global, list: &[Named]) -> Result<NamedList, AllocError>
    ensures { IfOk result (λ second. second.items ≡ list.now) }
{
    let mut second = NamedList::new(alloc);
    second.reserve(list.len())?;
    for named in list {
        second.push(named.again()?)?;
    }
    Ok(second)
}
