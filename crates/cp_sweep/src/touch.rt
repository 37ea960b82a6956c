//! The variables whose clauses an entry changes.
//!
//! What applies at a variable is decided by its clauses. So a search that gave nothing there needs no second one before an entry takes
//! one of them away or adds one.
ghost use Rattle.std.specs.Prelude.{◌≡◌, length};
ghost use Rattle.cp_logic.specs.Views.{entry_of};
ghost use Rattle.cp_sweep.specs.Marks.{with_marks, AreBelow};
ghost use Rattle.cp_sweep.specs.Cursor.{variables_at, variables_through, touched_by};

use crate::marks::Marks;
use cp_logic::{Entry, Named};

// Marks the variables whose clauses the entry changes.
pub(crate) fn touch(touched: &mut Marks, entry: &Entry)
    requires { AreBelow (length touched.old) (touched_by (entry_of entry.now)) }
    ensures { touched.new ≡ with_marks touched.old (touched_by (entry_of entry.now)) }
{
    let (first, second) = entry.gone_clauses();
    touch_all(touched, first);
    touch_all(touched, second);
    touch_all(touched, entry.new_clauses());
}

// Marks the variables of the clauses.
fn touch_all(touched: &mut Marks, clauses: &[Named])
    requires { AreBelow (length touched.old) (variables_through clauses.now) }
    ensures { touched.new ≡ with_marks touched.old (variables_through clauses.now) }
{
    for named in clauses {
        touch_clause(touched, named);
    }
}

// Marks the variables of the clause.
fn touch_clause(touched: &mut Marks, named: &Named)
    requires { AreBelow (length touched.old) (variables_at named.now) }
    ensures { touched.new ≡ with_marks touched.old (variables_at named.now) }
{
    for lit in named.clause.lits() {
        touched.insert(lit.var() as usize);
    }
}
