//! Printing a witness stack to a desk, through a buffer and without taking memory.
//!
//! The pairs stand in the order in which they were made, so that a run can append one more. Whoever completes a model goes through
//! them from the last to the first, as CaDiCaL's `extend.cpp` does. A pair is one line, its literal first and then the others of its
//! clause: so MiniSat's `SimpSolver::mkElimClause` keeps the clauses of an eliminated variable, and no literal is written twice.

ghost use Rattle.std.specs.Prelude.{◌≡◌, Some};
ghost use Rattle.cp_io.specs.declared.role.Way.TheVariants.{Out};
ghost use Rattle.cp_io.specs.declared.role.Role.TheVariants.{Stack as StackRole};
ghost use Rattle.cp_io.specs.Port.{AtRole, Writes};
ghost use Rattle.cp_io.specs.Prints.{Prints};
ghost use Rattle.cp_logic.specs.Pairs.{pair_of, pairs_of};
ghost use Rattle.cp_stack.specs.Text.{stack_text, pair_text, header_text, literal_part};

use cp_io::{Desk, Failed, OutputBuffer, Role, put_signed};
use cp_logic::{Lit, Pair, Stack};

/// Prints a stack to the role Stack, the pairs from the first to the last. It takes no memory.
///
/// Where a write fails, a front of the text was written.
pub fn print_stack<D: Desk>(desk: &mut D, stack: &Stack) -> Result<(), Failed>
    requires { (D.port desk.old StackRole).way ≡ Some Out }
    ensures { AtRole StackRole (Writes (stack_text stack.now.vars (pairs_of stack.now.pairs)) result) (D.port desk.old) (D.port desk.new) }
{
    if desk.gives_up(Role::Stack) {
        return Ok(());
    }
    let pairs = stack.pairs.as_slice();
    let mut buffer = OutputBuffer::new();
    put_header(&mut buffer, desk, stack.vars, pairs.len());
    for pair in pairs {
        put_pair(&mut buffer, desk, pair);
    }
    buffer.finish(desk, Role::Stack)
}

fn put_header<D: Desk>(buffer: &mut OutputBuffer, desk: &mut D, vars: u32, pairs: usize)
    requires { (D.port desk.old StackRole).way ≡ Some Out }
    ensures prints { Prints StackRole (header_text vars pairs) buffer.old (D.port desk.old) buffer.new (D.port desk.new) }
    ensures bound { (D.port desk.new StackRole).way ≡ Some Out }
{
    let mut number = itoa::Buffer::new();
    buffer.put(desk, Role::Stack, b"p stack 1 ");
    buffer.put(desk, Role::Stack, number.format(vars).as_bytes());
    buffer.put(desk, Role::Stack, b" ");
    buffer.put(desk, Role::Stack, number.format(pairs).as_bytes());
    buffer.put(desk, Role::Stack, b"\n");
}

fn put_pair<D: Desk>(buffer: &mut OutputBuffer, desk: &mut D, pair: &Pair)
    requires { (D.port desk.old StackRole).way ≡ Some Out }
    ensures prints { Prints StackRole (pair_text (pair_of pair.now)) buffer.old (D.port desk.old) buffer.new (D.port desk.new) }
    ensures bound { (D.port desk.new StackRole).way ≡ Some Out }
{
    let lits = pair.clause.lits();
    put_literal(buffer, desk, pair.lit);
    for lit in lits {
        if *lit != pair.lit {
            put_literal(buffer, desk, *lit);
        }
    }
    buffer.put(desk, Role::Stack, b"0\n");
}

fn put_literal<D: Desk>(buffer: &mut OutputBuffer, desk: &mut D, lit: Lit)
    requires { (D.port desk.old StackRole).way ≡ Some Out }
    ensures prints { Prints StackRole (literal_part lit) buffer.old (D.port desk.old) buffer.new (D.port desk.new) }
    ensures bound { (D.port desk.new StackRole).way ≡ Some Out }
{
    put_signed(buffer, desk, Role::Stack, lit.is_positive(), lit.var());
}
