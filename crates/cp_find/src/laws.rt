//! The laws of the finders. Each function does nothing, and its contract is the law.
ghost use Rattle.cp_find.specs.Laws.{FirstsAreLeast, FirstsAreLocal};

/// What a finder gives fits at the variable and comes before each other entry of its kind, and where it gives nothing there is none.
pub fn firsts_are_least()
    ensures { FirstsAreLeast }
{}

/// No clause outside the cell of the variable has a part in it: a finder gives in the cell what it would give among all clauses.
pub fn firsts_are_local()
    ensures { FirstsAreLocal }
{}
