//! The laws of elimination and of the search. Each function does nothing, and its contract is the law.
ghost use Rattle.cp_eliminate.specs.Laws.{EliminationFits, EliminationIsAlone, EliminationIsLocal, SearchIsFirst};

/// The elimination that is given fits, and each one that fits at the variable is that one, apart from the numbers of its new clauses.
pub fn elimination_is_alone()
    ensures fits { EliminationFits }
    ensures alone { EliminationIsAlone }
{}

/// No clause outside the cell of the variable has a part in the elimination.
pub fn elimination_is_local()
    ensures { EliminationIsLocal }
{}

/// What the search gives in the cell of the variable is the first legal entry of the formula there, where no clause is empty.
pub fn search_is_first()
    ensures { SearchIsFirst }
{}
