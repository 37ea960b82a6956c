//! The sizes of a formula.

ghost use Rattle.std.specs.Prelude.{◌≡◌, ◌<◌, ◌^◌, length};
ghost use Rattle.cp_logic.specs.Formulas.{IsFormula};
ghost use Rattle.cp_summary.specs.Text.{sizes_of, printed_sizes};

use cp_logic::{Clause, Formula};

/// How large a formula is: its number of variables, its number of clauses, and the sum of their sizes, as sets.
///
/// No formula that a memory holds has so many literals that they need more than 64 bits, but its type does not say so.
#[derive(Clone, Copy, PartialEq, Eq, Debug)]
pub struct Sizes {
    pub variables: u32,
    pub clauses: u64,
    pub literals: u128,
}

impl Sizes {
    /// The sizes of the formula, which is one as the definitions say.
    pub fn of(formula: &Formula) -> Sizes
        ensures value { result ≡ sizes_of formula.now.formula }
        ensures valid { IsFormula formula.now.formula }
    {
        let clauses = formula.len() as u64;
        let mut literals = 0;
        for (_number, clause) in formula.iter() {
            literals += size(clause);
        }
        Sizes {
            variables: formula.vars(),
            clauses,
            literals,
        }
    }

    /// The sizes of the text that the formula is printed as: one with the empty clause is printed as that clause alone.
    pub(crate) fn of_text(formula: &Formula) -> Sizes
        ensures { result ≡ printed_sizes formula.now.formula }
    {
        if formula.has_empty_clause() {
            return Sizes {
                variables: formula.vars(),
                clauses: 1,
                literals: 0,
            };
        }
        Sizes::of(formula)
    }
}

// The number of literals of a clause.
fn size(clause: &Clause) -> u128
    ensures value { result ≡ length clause.now }
    ensures most { result < 2 ^ 64 }
{
    clause.lits().len() as u128
}
