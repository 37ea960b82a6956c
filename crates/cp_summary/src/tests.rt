//! One summary, of a small run.

ghost use Rattle.std.specs.Prelude.{◌≡◌, IfOk};
ghost use Rattle.cp_io.specs.Port.{NothingBound};
ghost use Rattle.cp_io.specs.Memory.{memory_port};

use crate::{Sizes, print_summary};
use cp_io::{Desk, Failed, Inputs, MemDesk, Role, Way};
use cp_logic::{Clause, Entry, Formula, Journal, Lit, Named, Post};
use std::alloc::{AllocError, Global};
use std::test::Fail;

#[test]
fn a_run_is_summed_up(rt: HostRuntime) -> Result<(), Fail> {
    let mut journal = Journal::new(rt.alloc());
    let clause = Clause::from_lits(rt.alloc(), &[Lit::new(3, true), Lit::new(3, false)])?;
    let gone = Named { number: 1, clause };
    let entry = Entry::Taut { gone };
    journal.push(Post {
        worker: 0,
        round: 0,
        entry,
    })?;
    let mut desk = desk_of(rt.alloc())?;
    let reduced = Formula::new(rt.alloc(), 3, 3);
    print_of(&mut desk, &reduced, &journal)
        .ok()
        .ok_or("not printed")?;
    let wanted = "variables 3
clauses 0
literals 0
reduced-clauses 0
reduced-literals 0
tautologies 1
subsumed 0
strengthened 0
blocked 0
eliminated 0
pairs 1
stopped none
status 10
";
    assert_eq!(rt; desk.written(Role::Summary), wanted.as_bytes());
    Ok(())
}

// A desk of which no role is bound.
fn desk_of(alloc: Global) -> Result<MemDesk, AllocError>
    ensures { IfOk result (λ desk. NothingBound (memory_port desk)) }
{
    MemDesk::honest(alloc, Inputs::new(alloc))
}

fn print_of<D: Desk>(desk: &mut D, reduced: &Formula, journal: &Journal) -> Result<(), Failed>
    requires { NothingBound (D.port desk.old) }
{
    desk.bind(Role::Summary, Way::Out, "out")?;
    print_summary(desk, Sizes::of(reduced), reduced, journal, 1, None, 10)
}
