//! Printing the DRAT proof of a journal to a desk, through a buffer and without taking memory.
//!
//! DRAT (Wetzler, Heule, Hunt, SAT 2014) is a list of lemmas and deletions. A checker starts with the clauses of the formula. It
//! takes a lemma in where that is RUP, or RAT on its first literal, with respect to the clauses that it holds at this place, and a
//! deletion, a line behind a `d`, takes one clause out. A proof of unsatisfiability ends with the empty clause.
//!
//! In the text form, which each checker reads, a lemma is its literals and a 0. In the binary form, that of drat-trim, an item begins
//! with an `a` or a `d`, and a literal is its code in groups of seven bits. Both are one walk over the journal, and `Form` says what
//! stands around the literals. As in CaDiCaL's `drattracer.cpp` each change of the clauses is a line where it happens, so the log is
//! the journal gone through once, with nothing kept beside it. Two orders matter. The new clause stands before the old one is
//! deleted, since the old one is what shows that the new one is implied: so a shorter clause comes before the one that it replaces,
//! and resolvents before the clauses of their variable. And nothing follows the empty clause, with which a checker is done.
//!
//! A deletion names a clause by its literals, as the format has no numbers. The clause that a checker takes out may thus be another
//! one than the journal's where two have the same literals, and what is left is the same. A clause by which another was made
//! shorter, and the literal on which one was blocked, aren't told: a checker finds the first by propagation, and needs the second only
//! to complete a model.
//!
//! Each lemma of a legal journal is RUP where it stands, and needs no RAT; and where the journal comes to the empty clause, the log
//! has it: `laws` has both. A formula that has the empty clause from the start has no legal step, and its log is empty.

ghost use Rattle.std.specs.Prelude.{◌≡◌, [], ◌∷◌, ◌++◌, Some, map};
ghost use Rattle.cp_io.specs.declared.role.Way.TheVariants.{Out};
ghost use Rattle.cp_io.specs.declared.role.Role.TheVariants.{Proof};
ghost use Rattle.cp_io.specs.Port.{AtRole, Writes};
ghost use Rattle.cp_io.specs.Prints.{Prints};
ghost use Rattle.cp_logic.specs.Views.{entry_of, post_of};
ghost use Rattle.cp_drat.specs.Log.{Lemma, Deletion, lemma_of, deletion_of, items_of, cut, has_end, is_end, log_of};
ghost use Rattle.cp_drat.specs.Text.{log_text, item_text, clause_text, literal_text, code_bytes};

use crate::marks::{deletion_mark, end_mark, lemma_mark};
use cp_io::{Desk, Failed, OutputBuffer, Role, put_signed};
use cp_logic::{Clause, Entry, Form, Journal, Lit, Named, Post};

/// Prints the DRAT proof of a journal to the role Proof in the form, up to the first empty clause. It takes no memory.
///
/// Where a write fails, a front of the text was written.
pub fn print_log<D: Desk>(desk: &mut D, journal: &Journal, form: Form) -> Result<(), Failed>
    requires { (D.port desk.old Proof).way ≡ Some Out }
    ensures { AtRole Proof (Writes (log_text form (log_of journal.now.items)) result) (D.port desk.old) (D.port desk.new) }
{
    if desk.gives_up(Role::Proof) {
        return Ok(());
    }
    let mut buffer = OutputBuffer::new();
    put_posts(&mut buffer, desk, form, journal.as_slice());
    buffer.finish(desk, Role::Proof)
}

fn put_posts<D: Desk>(buffer: &mut OutputBuffer, desk: &mut D, form: Form, posts: &[Post])
    requires { (D.port desk.old Proof).way ≡ Some Out }
    ensures prints { Prints Proof (log_text form (log_of (map (λ p. post_of p) posts.now))) buffer.old (D.port desk.old) buffer.new (D.port desk.new) }
    ensures bound { (D.port desk.new Proof).way ≡ Some Out }
{
    for post in posts {
        if put_entry(buffer, desk, form, &post.entry) {
            return;
        }
    }
}

// Answers whether the empty clause was added, behind which nothing is printed.
fn put_entry<D: Desk>(buffer: &mut OutputBuffer, desk: &mut D, form: Form, entry: &Entry) -> bool
    requires { (D.port desk.old Proof).way ≡ Some Out }
    ensures prints { Prints Proof (log_text form (cut (items_of (entry_of entry.now)))) buffer.old (D.port desk.old) buffer.new (D.port desk.new) }
    ensures bound { (D.port desk.new Proof).way ≡ Some Out }
    ensures ends { result ≡ has_end (items_of (entry_of entry.now)) }
{
    match entry {
        Entry::Taut { gone } => put_deletion(buffer, desk, form, &gone.clause),
        Entry::Subsume { gone, .. } => put_deletion(buffer, desk, form, &gone.clause),
        Entry::Strengthen { on, new, .. } => return put_shorter(buffer, desk, form, on, new),
        Entry::Block { gone, .. } => put_deletion(buffer, desk, form, &gone.clause),
        Entry::Eliminate { pos, neg, new, .. } => {
            return put_resolvents(
                buffer,
                desk,
                form,
                pos.as_slice(),
                neg.as_slice(),
                new.as_slice(),
            );
        }
        Entry::Look { .. } => {}
    }
    false
}

fn put_shorter<D: Desk>(
    buffer: &mut OutputBuffer,
    desk: &mut D,
    form: Form,
    on: &Named,
    new: &Named,
) -> bool
    requires { (D.port desk.old Proof).way ≡ Some Out }
    ensures prints { Prints Proof (log_text form (cut (lemma_of new.now ∷ deletion_of on.now ∷ []))) buffer.old (D.port desk.old) buffer.new (D.port desk.new) }
    ensures bound { (D.port desk.new Proof).way ≡ Some Out }
    ensures ends { result ≡ has_end (lemma_of new.now ∷ deletion_of on.now ∷ []) }
{
    if put_lemma(buffer, desk, form, &new.clause) {
        return true;
    }
    put_deletion(buffer, desk, form, &on.clause);
    false
}

fn put_resolvents<D: Desk>(
    buffer: &mut OutputBuffer,
    desk: &mut D,
    form: Form,
    pos: &[Named],
    neg: &[Named],
    new: &[Named],
) -> bool
    requires { (D.port desk.old Proof).way ≡ Some Out }
    ensures prints { Prints Proof (log_text form (cut (map lemma_of new.now ++ (map deletion_of pos.now ++ map deletion_of neg.now)))) buffer.old (D.port desk.old) buffer.new (D.port desk.new) }
    ensures bound { (D.port desk.new Proof).way ≡ Some Out }
    ensures ends { result ≡ has_end (map lemma_of new.now ++ (map deletion_of pos.now ++ map deletion_of neg.now)) }
{
    if put_lemmas(buffer, desk, form, new) {
        return true;
    }
    put_deletions(buffer, desk, form, pos);
    put_deletions(buffer, desk, form, neg);
    false
}

// Answers whether the empty clause was added.
fn put_lemmas<D: Desk>(buffer: &mut OutputBuffer, desk: &mut D, form: Form, list: &[Named]) -> bool
    requires { (D.port desk.old Proof).way ≡ Some Out }
    ensures prints { Prints Proof (log_text form (cut (map lemma_of list.now))) buffer.old (D.port desk.old) buffer.new (D.port desk.new) }
    ensures bound { (D.port desk.new Proof).way ≡ Some Out }
    ensures ends { result ≡ has_end (map lemma_of list.now) }
{
    for named in list {
        if put_lemma(buffer, desk, form, &named.clause) {
            return true;
        }
    }
    false
}

fn put_deletions<D: Desk>(buffer: &mut OutputBuffer, desk: &mut D, form: Form, list: &[Named])
    requires { (D.port desk.old Proof).way ≡ Some Out }
    ensures prints { Prints Proof (log_text form (map deletion_of list.now)) buffer.old (D.port desk.old) buffer.new (D.port desk.new) }
    ensures bound { (D.port desk.new Proof).way ≡ Some Out }
{
    for named in list {
        put_deletion(buffer, desk, form, &named.clause);
    }
}

// Answers whether the lemma is the empty clause.
fn put_lemma<D: Desk>(buffer: &mut OutputBuffer, desk: &mut D, form: Form, clause: &Clause) -> bool
    requires { (D.port desk.old Proof).way ≡ Some Out }
    ensures prints { Prints Proof (item_text form (Lemma clause.now)) buffer.old (D.port desk.old) buffer.new (D.port desk.new) }
    ensures bound { (D.port desk.new Proof).way ≡ Some Out }
    ensures ends { result ≡ is_end (Lemma clause.now) }
{
    let lits = clause.lits();
    buffer.put(desk, Role::Proof, lemma_mark(form));
    put_clause(buffer, desk, form, lits);
    lits.is_empty()
}

fn put_deletion<D: Desk>(buffer: &mut OutputBuffer, desk: &mut D, form: Form, clause: &Clause)
    requires { (D.port desk.old Proof).way ≡ Some Out }
    ensures prints { Prints Proof (item_text form (Deletion clause.now)) buffer.old (D.port desk.old) buffer.new (D.port desk.new) }
    ensures bound { (D.port desk.new Proof).way ≡ Some Out }
{
    buffer.put(desk, Role::Proof, deletion_mark(form));
    put_clause(buffer, desk, form, clause.lits());
}

fn put_clause<D: Desk>(buffer: &mut OutputBuffer, desk: &mut D, form: Form, lits: &[Lit])
    requires { (D.port desk.old Proof).way ≡ Some Out }
    ensures prints { Prints Proof (clause_text form lits.now) buffer.old (D.port desk.old) buffer.new (D.port desk.new) }
    ensures bound { (D.port desk.new Proof).way ≡ Some Out }
{
    for lit in lits {
        put_literal(buffer, desk, form, *lit);
    }
    buffer.put(desk, Role::Proof, end_mark(form));
}

#[tactic(auto, unfolding(crate::specs::Text::literal_text))]
fn put_literal<D: Desk>(buffer: &mut OutputBuffer, desk: &mut D, form: Form, lit: Lit)
    requires { (D.port desk.old Proof).way ≡ Some Out }
    ensures prints { Prints Proof (literal_text form lit) buffer.old (D.port desk.old) buffer.new (D.port desk.new) }
    ensures bound { (D.port desk.new Proof).way ≡ Some Out }
{
    match form {
        Form::Text => put_signed(buffer, desk, Role::Proof, lit.is_positive(), lit.var()),
        Form::Binary => put_code(buffer, desk, lit),
    }
}

// The code in groups of seven bits, the low group first. The high bit says that another follows.
fn put_code<D: Desk>(buffer: &mut OutputBuffer, desk: &mut D, lit: Lit)
    requires { (D.port desk.old Proof).way ≡ Some Out }
    ensures prints { Prints Proof (code_bytes lit) buffer.old (D.port desk.old) buffer.new (D.port desk.new) }
    ensures bound { (D.port desk.new Proof).way ≡ Some Out }
{
    let mut rest = lit.code();
    'groups: while rest >= 128 {
        buffer.put_byte(desk, Role::Proof, (rest % 128 + 128) as u8);
        rest /= 128;
    }
    buffer.put_byte(desk, Role::Proof, rest as u8);
}
