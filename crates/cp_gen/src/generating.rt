//! The generator. Its state is a number below 2^31 that a linear congruence moves on, with the constants of the C standard's example
//! of `rand`. The low bits of such a state have short periods, so a draw leaves the lowest eight out.

ghost use Rattle.std.specs.Prelude.{◌≡◌, ◌<◌, ◌≤◌, ◌^◌, IfOk};
ghost use Rattle.cp_gen.specs.Generated.{generated, next_state, drawn_literal};

use cp_logic::{Clause, Formula, Lit};
use std::alloc::{AllocError, Global};

/// The formula of so many clauses over the variables 1 to `vars` that the seed gives. Each clause is three draws, in which a literal
/// may come again, and may come with its negation. It answers an error for want of memory alone.
pub fn generate(alloc: Global, seed: u32, vars: u32, clauses: u32) -> Result<Formula, AllocError>
    requires seed { seed < 2 ^ 31 }
    requires vars { (1 ≤ vars) × (vars ≤ 2000000) }
    requires clauses { clauses ≤ 8000000 }
    ensures { IfOk result (λ f. f.formula ≡ generated seed vars clauses) }
{
    let mut formula = Formula::new(alloc, vars, 1);
    formula.reserve(clauses as usize)?;
    let mut state = seed;
    'clauses: for _number in 0..clauses {
        let first = next_state(state);
        let second = next_state(first);
        let third = next_state(second);
        let lits = [
            drawn_literal(first, vars),
            drawn_literal(second, vars),
            drawn_literal(third, vars),
        ];
        formula.push(Clause::from_lits(alloc, &lits)?)?;
        state = third;
    }
    Ok(formula)
}

// The state after this one.
#[tactic(auto, unfolding(crate::specs::Generated::next_state))]
fn next_state(state: u32) -> u32
    requires { state < 2 ^ 31 }
    ensures next { result ≡ next_state state }
    ensures below { result < 2 ^ 31 }
{
    ((1_103_515_245 * u64::from(state) + 12_345) % 2_147_483_648) as u32
}

// The literal that is drawn in this state.
#[tactic(auto, unfolding(crate::specs::Generated::drawn_literal))]
fn drawn_literal(state: u32, vars: u32) -> Lit
    requires { (1 ≤ vars) × (vars ≤ 2000000) }
    ensures { result ≡ drawn_literal vars state }
{
    let draw = state / 256;
    Lit::new(1 + draw / 2 % vars, draw % 2 == 0)
}
