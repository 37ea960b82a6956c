//! The line of each refusal.

ghost use Rattle.std.specs.Prelude.{◌≡◌, Some};
ghost use Rattle.cp_roles.specs.Lines.{counted, input_word, model_word, refusal_line, role_word, stack_word, usage_line};

use crate::refusal::Refusal;
use cp_dimacs::InputKind;
use cp_extend::ModelKind;
use cp_io::{Limit, Role};
use cp_stack::StackKind;
use cp_words::UsageKind;
use std::fmt;

/// The line of the refusal, without the program's name before it and the line feed behind it.
impl fmt::Display for Refusal {
    ghost output = { λ r. Some (refusal_line r) };

    fn fmt<W: fmt::Write>(&self, f: &mut fmt::Formatter<W>) -> fmt::Result {
        match self {
            Refusal::Usage { kind } => write!(f, "{}", line_of(*kind)),
            Refusal::OpenFault { role } => write!(f, "cannot open {}", name_of(*role)),
            Refusal::ReadFault { role } => write!(f, "cannot read {}", name_of(*role)),
            Refusal::TooLarge {
                role,
                limit,
                offset,
            } => write!(
                f,
                "{} has too many {} at byte {offset}",
                name_of(*role),
                counted_by(*limit)
            ),
            Refusal::BadInput { offset, kind } => {
                write!(f, "bad input at byte {offset}: {}", input_fault(*kind))
            }
            Refusal::BadStack { offset, kind } => {
                write!(f, "bad stack at byte {offset}: {}", stack_fault(*kind))
            }
            Refusal::BadModel { offset, kind } => {
                write!(f, "bad model at byte {offset}: {}", model_fault(*kind))
            }
            Refusal::NoModel => write!(f, "no model"),
            Refusal::WriteFault { role, .. } => write!(f, "cannot write {}", name_of(*role)),
            Refusal::NoMemory => write!(f, "out of memory"),
        }
    }
}

fn line_of(kind: UsageKind) -> &'static str
    ensures { result.now ≡ usage_line kind }
{
    match kind {
        UsageKind::Command => "no such command",
        UsageKind::Words => "bad options",
        UsageKind::Choice => "bad letters in --only",
        UsageKind::Form => "bad option value",
        UsageKind::Names => "one name for two roles",
    }
}

fn counted_by(limit: Limit) -> &'static str
    ensures { result.now ≡ counted limit }
{
    match limit {
        Limit::Variables => "variables",
        Limit::Clauses => "clauses",
        Limit::Literals => "literals",
        Limit::Bytes => "bytes",
    }
}

fn name_of(role: Role) -> &'static str
    ensures { result.now ≡ role_word role }
{
    match role {
        Role::Cnf => "cnf",
        Role::Reduced => "reduced",
        Role::Stack => "stack",
        Role::Proof => "proof",
        Role::Model => "model",
        Role::Full => "full",
        Role::Summary => "summary",
        Role::Frozen => "frozen",
    }
}

fn input_fault(kind: InputKind) -> &'static str
    ensures { result.now ≡ input_word kind }
{
    match kind {
        InputKind::NoHeader => "NoHeader",
        InputKind::BadHeader => "BadHeader",
        InputKind::BadWord => "BadWord",
        InputKind::OpenClause => "OpenClause",
    }
}

fn stack_fault(kind: StackKind) -> &'static str
    ensures { result.now ≡ stack_word kind }
{
    match kind {
        StackKind::BadHeader => "BadHeader",
        StackKind::BadWord => "BadWord",
        StackKind::TooGreat => "TooGreat",
        StackKind::EmptyPair => "EmptyPair",
        StackKind::OpenPair => "OpenPair",
        StackKind::Count => "Count",
    }
}

fn model_fault(kind: ModelKind) -> &'static str
    ensures { result.now ≡ model_word kind }
{
    match kind {
        ModelKind::BadWord => "BadWord",
        ModelKind::BadStatus => "BadStatus",
        ModelKind::Contradiction => "Contradiction",
        ModelKind::NoEnd => "NoEnd",
    }
}
