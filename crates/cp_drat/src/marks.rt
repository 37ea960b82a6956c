//! What stands around the literals of a clause, in each form of a DRAT proof.

ghost use Rattle.std.specs.Prelude.{◌≡◌};
ghost use Rattle.cp_drat.specs.Text.{end_text, lemma_text, deletion_text};

use cp_logic::Form;

/// What stands before the literals of a lemma.
#[tactic(auto, unfolding(crate::specs::Text::lemma_text))]
pub(crate) fn lemma_mark(form: Form) -> &'static [u8]
    ensures { result.now ≡ lemma_text form }
{
    match form {
        Form::Text => b"",
        Form::Binary => b"a",
    }
}

/// What stands before the literals of a deletion.
#[tactic(auto, unfolding(crate::specs::Text::deletion_text))]
pub(crate) fn deletion_mark(form: Form) -> &'static [u8]
    ensures { result.now ≡ deletion_text form }
{
    match form {
        Form::Text => b"d ",
        Form::Binary => b"d",
    }
}

/// What stands behind the literals.
#[tactic(auto, unfolding(crate::specs::Text::end_text))]
pub(crate) fn end_mark(form: Form) -> &'static [u8]
    ensures { result.now ≡ end_text form }
{
    match form {
        Form::Text => b"0\n",
        Form::Binary => b"\0",
    }
}
