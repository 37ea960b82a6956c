//! Binding the roles of a command, in their order.

ghost use Rattle.std.specs.Prelude.{◌≡◌, []};
ghost use Rattle.cp_io.specs.declared.role.Way.TheVariants.{In, Out};
ghost use Rattle.cp_io.specs.Port.{NothingBound};
ghost use Rattle.cp_words.specs.Answers.{simplify_seen, extend_seen, generate_seen};
ghost use Rattle.cp_roles.specs.Bindings.{AreApart, BindsInTurn, wanted};
ghost use Rattle.cp_roles.specs.Commands.{simplify_bindings, extend_bindings, generate_bindings};

use cp_io::{Desk, Role, Way};
use cp_words::{ExtendOptions, GenerateOptions, SimplifyOptions};

// A role that is to be bound, in its way, under its name.
#[derive(Clone, Copy)]
pub(crate) struct Bind<'a> {
    pub(crate) role: Role,
    pub(crate) way: Way,
    pub(crate) name: &'a str,
}

/// Binds the roles of `simplify`. At an error it is the role that could not be bound.
pub fn bind_simplify<D: Desk>(desk: &mut D, options: &SimplifyOptions<'_>) -> Result<(), Role>
    requires { NothingBound (D.port desk.old) }
    ensures { BindsInTurn (simplify_bindings (simplify_seen options.now)) result (D.port desk.old) (D.port desk.new) }
{
    let binds = [
        input(Role::Cnf, options.cnf),
        output(Role::Reduced, options.reduced),
        output(Role::Stack, options.stack),
        output(Role::Proof, options.proof),
        output(Role::Summary, options.summary),
    ];
    bind_all(desk, binds.as_slice())
}

/// Binds the roles of `extend`. At an error it is the role that could not be bound.
pub fn bind_extend<D: Desk>(desk: &mut D, options: &ExtendOptions<'_>) -> Result<(), Role>
    requires { NothingBound (D.port desk.old) }
    ensures { BindsInTurn (extend_bindings (extend_seen options.now)) result (D.port desk.old) (D.port desk.new) }
{
    let binds = [
        input(Role::Stack, options.stack),
        input(Role::Model, options.model),
        output(Role::Full, options.full),
    ];
    bind_all(desk, binds.as_slice())
}

/// Binds the role of `generate`. At an error it is the role, which could not be bound.
pub fn bind_generate<D: Desk>(desk: &mut D, options: &GenerateOptions<'_>) -> Result<(), Role>
    requires { NothingBound (D.port desk.old) }
    ensures { BindsInTurn (generate_bindings (generate_seen options.now)) result (D.port desk.old) (D.port desk.new) }
{
    let binds = [output(Role::Summary, options.summary)];
    bind_all(desk, binds.as_slice())
}

fn input(role: Role, name: &str) -> Bind<'_>
    ensures { result ≡ record { role = role; way = In; name = name.entry } }
{
    Bind {
        role,
        way: Way::In,
        name,
    }
}

fn output(role: Role, name: &str) -> Bind<'_>
    ensures { result ≡ record { role = role; way = Out; name = name.entry } }
{
    Bind {
        role,
        way: Way::Out,
        name,
    }
}

// Binds the roles in turn. At an error it is the role that could not be bound.
fn bind_all<D: Desk>(desk: &mut D, binds: &[Bind<'_>]) -> Result<(), Role>
    requires nothing { NothingBound (D.port desk.old) }
    requires apart { AreApart [] (wanted binds.now) }
    ensures { BindsInTurn (wanted binds.now) result (D.port desk.old) (D.port desk.new) }
{
    for bind in binds {
        if desk.bind(bind.role, bind.way, bind.name).is_err() {
            return Err(bind.role);
        }
    }
    Ok(())
}
