//! The laws of what an input reads as. Each function does nothing, and its contract is the law.

ghost use Rattle.cp_dimacs.specs.Laws.{ReadsWithin, ReadsFew, ReadsPrinted};

/// What an input reads as depends on no byte behind the first past the limit.
pub fn reads_within()
    ensures { ReadsWithin }
{}

/// A formula that is read has no more clauses than the limit says.
pub fn reads_few()
    ensures { ReadsFew }
{}

/// Within the limits the text of a formula is read as its clauses in order, or, where it has the empty clause, as that alone.
pub fn printed_formulas_are_read()
    ensures { ReadsPrinted }
{}
