//! Reading the inputs of a run from their roles: the formula, the stack, and the model.

ghost use Rattle.std.specs.Prelude.{◌≡◌, ◌≤◌, Some};
ghost use Rattle.cp_io.specs.declared.role.Role.TheVariants as roles;
ghost use Rattle.cp_io.specs.declared.role.Way.TheVariants.{In};
ghost use Rattle.cp_io.specs.Port.{AtRole};
ghost use Rattle.cp_io.specs.Limits.{standard_limits};
ghost use Rattle.cp_roles.specs.Input.{ReadsInput, ReadsFormula, ReadsStack, ReadsModel, FormulaSaid, StackSaid, ModelSaid};

use crate::refusal::Refusal;
use cp_dimacs::{CnfRefusal, parse_cnf};
use cp_extend::{ModelRefusal, parse_model};
use cp_io::{Desk, Limits, ReadError, Role, read_up_to};
use cp_logic::{Assignment, Formula, Stack};
use cp_stack::{StackRefusal, parse_stack};
use std::alloc::Global;

// One byte past the limit, so that an input that is too long is seen as such. No reader looks at more: each has a law that says so.
const MOST_BYTES: usize = 1_073_741_825;

/// Reads what is left of Cnf as a formula, or says why there is none.
pub fn read_formula<D: Desk>(alloc: Global, desk: &mut D) -> Result<Formula, Refusal>
    requires { (D.port desk.old roles.Cnf).way ≡ Some In }
    ensures { AtRole roles.Cnf (ReadsFormula result) (D.port desk.old) (D.port desk.new) }
{
    let bytes = read_input(alloc, desk, Role::Cnf)?;
    cp_dimacs::laws::reads_within();
    parse_formula(alloc, &bytes)
}

fn parse_formula(alloc: Global, bytes: &[u8]) -> Result<Formula, Refusal>
    ensures { FormulaSaid bytes.now result }
{
    match parse_cnf(alloc, bytes, &Limits::standard()) {
        Ok(formula) => Ok(formula),
        Err(CnfRefusal::BadInput { offset, kind }) => Err(Refusal::BadInput { offset, kind }),
        Err(CnfRefusal::TooLarge { limit, offset }) => Err(Refusal::TooLarge {
            role: Role::Cnf,
            limit,
            offset,
        }),
        Err(CnfRefusal::NoMemory) => Err(Refusal::NoMemory),
    }
}

/// Reads what is left of Stack as pairs, or says why there are none.
pub fn read_stack<D: Desk>(alloc: Global, desk: &mut D) -> Result<Stack, Refusal>
    requires { (D.port desk.old roles.Stack).way ≡ Some In }
    ensures { AtRole roles.Stack (ReadsStack result) (D.port desk.old) (D.port desk.new) }
{
    let bytes = read_input(alloc, desk, Role::Stack)?;
    cp_stack::laws::reads_within();
    parse_pairs(alloc, &bytes)
}

fn parse_pairs(alloc: Global, bytes: &[u8]) -> Result<Stack, Refusal>
    ensures { StackSaid bytes.now result }
{
    match parse_stack(alloc, bytes, &Limits::standard()) {
        Ok(stack) => Ok(stack),
        Err(StackRefusal::BadStack { offset, kind }) => Err(Refusal::BadStack { offset, kind }),
        Err(StackRefusal::TooLarge { limit, offset }) => Err(Refusal::TooLarge {
            role: Role::Stack,
            limit,
            offset,
        }),
        Err(StackRefusal::NoMemory) => Err(Refusal::NoMemory),
    }
}

/// Reads what is left of Model as a model of the variables 1 to `vars`, or says why there is none.
pub fn read_model<D: Desk>(alloc: Global, desk: &mut D, vars: u32) -> Result<Assignment, Refusal>
    requires bound { (D.port desk.old roles.Model).way ≡ Some In }
    requires within { vars ≤ standard_limits.variables }
    ensures { AtRole roles.Model (ReadsModel vars result) (D.port desk.old) (D.port desk.new) }
{
    let bytes = read_input(alloc, desk, Role::Model)?;
    cp_extend::laws::reads_within();
    parse_values(alloc, vars, &bytes)
}

fn parse_values(alloc: Global, vars: u32, bytes: &[u8]) -> Result<Assignment, Refusal>
    requires { vars ≤ standard_limits.variables }
    ensures { ModelSaid vars bytes.now result }
{
    match parse_model(alloc, vars, bytes, &Limits::standard()) {
        Ok(model) => Ok(model),
        Err(ModelRefusal::BadModel { offset, kind }) => Err(Refusal::BadModel { offset, kind }),
        Err(ModelRefusal::NoModel) => Err(Refusal::NoModel),
        Err(ModelRefusal::TooLarge { limit, offset }) => Err(Refusal::TooLarge {
            role: Role::Model,
            limit,
            offset,
        }),
        Err(ModelRefusal::NoMemory) => Err(Refusal::NoMemory),
    }
}

// The front of what is left of a role that its reader looks at.
fn read_input<D: Desk>(alloc: Global, desk: &mut D, role: Role) -> Result<Vec<u8>, Refusal>
    requires { (D.port desk.old role).way ≡ Some In }
    ensures { AtRole role (ReadsInput role result) (D.port desk.old) (D.port desk.new) }
{
    match read_up_to(alloc, desk, role, MOST_BYTES) {
        Ok(bytes) => Ok(bytes),
        Err(ReadError::Failed) => Err(Refusal::ReadFault { role }),
        Err(ReadError::NoMemory) => Err(Refusal::NoMemory),
    }
}
