//! The laws of logs and of their binary form. Each function does nothing, and its contract is the law.
ghost use Rattle.cp_drat.specs.Checks.{LemmasAreRup, LogHasEnd, LogIsAccepted, RupLogRefutes};
ghost use Rattle.cp_drat.specs.Text.{CodesAreRead};

/// Each lemma of a legal journal's log is RUP with respect to the clauses that a checker holds where it stands, so a checker that
/// starts with the formula accepts the log.
pub fn logs_are_accepted()
    ensures rup { LemmasAreRup }
    ensures accepted { LogIsAccepted }
{}

/// Where a journal comes to the empty clause, so does its log.
pub fn logs_end()
    ensures { LogHasEnd }
{}

/// Clauses from which lemmas that are RUP come to the empty clause have no model.
pub fn logs_refute()
    ensures { RupLogRefutes }
{}

/// A literal of the binary form is read back, whatever follows it.
pub fn codes_are_read()
    ensures { CodesAreRead }
{}
