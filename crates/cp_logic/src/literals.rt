//! The literals of a clause, in little room.
//!
//! Most clauses have two or three literals. Up to three lie in the value itself, which takes 16 bytes, so that a clause that is shared
//! takes a block of 24, and four to six in one block of their own. More lie in a `SmallVec`, whose value would take 32 bytes for each
//! clause. As in MiniSat, where the literals lie behind the clause's header, the memory of a formula is mostly that of its literals.
ghost use Rattle.std.specs.Prelude.{◌≡◌, IfOk};

use crate::lits::Lit;
use smallvec::SmallVec;
use std::alloc::{AllocError, Global};
use std::marker::Model;

/// A list of literals that never grows.
#[derive(Drop)]
pub(crate) struct Literals {
    kept: Kept,
}

#[derive(Drop)]
pub(crate) enum Kept {
    Zero,
    One([Lit; 1]),
    Two([Lit; 2]),
    Three([Lit; 3]),
    Four(Box<[Lit; 4]>),
    Five(Box<[Lit; 5]>),
    Six(Box<[Lit; 6]>),
    More(Box<SmallVec<Lit, 4>>),
}

impl Model for Literals {
    ghost use Rattle.std.specs.Prelude.{ℕ, List};
    ghost use Rattle.cp_logic.specs.Stored.{literals_in};

    ghost Value = { List ℕ };

    ghost view = { λ l. literals_in l.kept };
}

impl Literals {
    /// Just these literals.
    pub(crate) fn of(alloc: Global, list: SmallVec<Lit, 4>) -> Result<Literals, AllocError>
        ensures { IfOk result (λ l. l ≡ list.items) }
    {
        let kept = match list.as_slice() {
            [] => Kept::Zero,
            [a] => Kept::One([*a]),
            [a, b] => Kept::Two([*a, *b]),
            [a, b, c] => Kept::Three([*a, *b, *c]),
            [a, b, c, d] => Kept::Four(Box::new(alloc, [*a, *b, *c, *d])?),
            [a, b, c, d, e] => Kept::Five(Box::new(alloc, [*a, *b, *c, *d, *e])?),
            [a, b, c, d, e, f] => Kept::Six(Box::new(alloc, [*a, *b, *c, *d, *e, *f])?),
            _ => return Literals::of_many(alloc, list),
        };
        Ok(Literals { kept })
    }

    // The same in a list of their own.
    fn of_many(alloc: Global, list: SmallVec<Lit, 4>) -> Result<Literals, AllocError>
        ensures { IfOk result (λ l. l ≡ list.items) }
    {
        let list = Box::new(alloc, list)?;
        Ok(Literals {
            kept: Kept::More(list),
        })
    }

    /// The literals in their order.
    pub(crate) fn as_slice(&self) -> &[Lit]
        ensures { result.now ≡ self.now }
    {
        match &self.kept {
            Kept::Zero => &[],
            Kept::One(lits) => lits.as_slice(),
            Kept::Two(lits) => lits.as_slice(),
            Kept::Three(lits) => lits.as_slice(),
            Kept::Four(lits) => lits.as_slice(),
            Kept::Five(lits) => lits.as_slice(),
            Kept::Six(lits) => lits.as_slice(),
            Kept::More(list) => list.as_slice(),
        }
    }
}
