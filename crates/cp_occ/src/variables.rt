//! The variables of a clause, each once.
ghost use Rattle.std.specs.Prelude.{◌≡◌};
ghost use Rattle.std.specs.Iterator.{YieldsFirst, item_count};
ghost use Rattle.std.specs.List.{All};
ghost use Rattle.cp_logic.specs.Literals.{IsLiteral};
ghost use Rattle.cp_logic.specs.Clauses.{IsAscending};
ghost use Rattle.cp_occ.specs.Cells.{variables_after};

use cp_logic::{Clause, Lit};
use std::marker::Model;

// The variables of literals that are left, seen as the list of them. Literals of one variable stand together.
#[derive(Drop)]
pub(crate) struct Variables<'a> {
    left: &'a [Lit],
    last: u32,
}

impl<'a> Model for Variables<'a> {
    ghost use Rattle.std.specs.Prelude.{ℕ, List};
    ghost use Rattle.cp_occ.specs.Cells.{variables_after};

    ghost Value = { List ℕ };

    ghost view = { λ it. variables_after it.last it.left.now };
}

impl<'a> Iterator for Variables<'a> {
    type Item = u32;

    ghost next_gives = { YieldsFirst (λ rest. rest) };

    ghost remaining = { item_count (λ rest. rest) };

    fn next(&mut self) -> Option<u32> {
        while let Some((lit, rest)) = self.left.split_first() {
            self.left = rest;
            let var = lit.var();
            if var != self.last {
                self.last = var;
                return Some(var);
            }
        }
        None
    }
}

impl<'a> Variables<'a> {
    // The variables of the clause, ascending.
    pub(crate) fn of(clause: &'a Clause) -> Variables<'a>
        ensures value { result ≡ variables_after 0 clause.now }
        ensures ascending { IsAscending clause.now }
        ensures literals { All IsLiteral clause.now }
    {
        Variables {
            left: clause.lits(),
            last: 0,
        }
    }
}
