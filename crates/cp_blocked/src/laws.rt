//! The laws of the finder. Each function does nothing, and its contract is the law.
ghost use Rattle.cp_blocked.specs.Laws.{FirstIsLeast, FirstIsLocal};

/// What the finder gives fits at the variable and comes before each other blocked clause, and where it gives nothing there is none.
pub fn first_is_least()
    ensures { FirstIsLeast }
{}

/// No clause outside the cell of the variable has a part in it: the finder gives in the cell what it would give among all clauses.
pub fn first_is_local()
    ensures { FirstIsLocal }
{}
