//! The laws of stack texts. Each function does nothing, and its contract is the law.

ghost use Rattle.cp_stack.specs.Laws.{ReadsWithin, ReadsPrinted, JournalMakesPairs, ReadsJournalStack};

/// What a text reads as depends on no byte behind the first past the limit.
pub fn reads_within()
    ensures { ReadsWithin }
{}

/// Within the limits the text of a stack is read as the stack.
pub fn printed_stacks_are_read()
    ensures { ReadsPrinted }
{}

/// The pairs of a legal journal are such as a stack's text keeps, so within the limits the text of its stack is read as the stack.
pub fn stacks_of_journals_are_read()
    ensures pairs { JournalMakesPairs }
    ensures read { ReadsJournalStack }
{}
