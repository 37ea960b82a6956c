//! The names of a command's roles: two roles have different names, unless a name is `none`, or it is `std` and one role is an
//! input and the other an output.

ghost use Rattle.std.specs.Prelude.{◌≡◌, false, map, true};
ghost use Rattle.std.specs.List.{list_any};
ghost use Rattle.cp_words.specs.Names.{clash, some_clash};
ghost use Rattle.cp_words.specs.Roles.{named};

/// A role that has a name: an input or an output.
#[derive(Clone, Copy)]
pub(crate) struct NamedRole<'a> {
    pub(crate) name: &'a str,
    pub(crate) is_input: bool,
}

impl<'a> NamedRole<'a> {
    pub(crate) fn input(name: &'a str) -> NamedRole<'a>
        ensures { result ≡ record { name = name.entry; is_input = true } }
    {
        NamedRole {
            name,
            is_input: true,
        }
    }

    pub(crate) fn output(name: &'a str) -> NamedRole<'a>
        ensures { result ≡ record { name = name.entry; is_input = false } }
    {
        NamedRole {
            name,
            is_input: false,
        }
    }
}

/// Whether two of the roles have one name.
pub(crate) fn some_clash(roles: &[NamedRole<'_>]) -> bool
    ensures { result ≡ some_clash (map named roles.now) }
{
    let mut rest = roles;
    while let [role, others @ ..] = rest {
        if clashes_with_any(*role, others) {
            return true;
        }
        rest = others;
    }
    false
}

fn clashes_with_any(role: NamedRole<'_>, others: &[NamedRole<'_>]) -> bool
    ensures { result ≡ list_any (clash (named role.entry)) (map named others.now) }
{
    let mut rest = others;
    while let [other, after @ ..] = rest {
        if clash(role, *other) {
            return true;
        }
        rest = after;
    }
    false
}

fn clash(a: NamedRole<'_>, b: NamedRole<'_>) -> bool
    ensures { result ≡ clash (named a.entry) (named b.entry) }
{
    a.name == b.name && a.name != "none" && !(a.name == "std" && a.is_input != b.is_input)
}
