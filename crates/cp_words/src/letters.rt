//! The letters of `--only`, and the words of `--proof-form`.

ghost use Rattle.std.specs.Prelude.{◌≡◌};
ghost use Rattle.std.specs.List.{list_all};
ghost use Rattle.cp_words.specs.Letters.{choice_of, form_of, is_technique};

use cp_logic::{Choice, Form};

/// The techniques that the letters choose, or `None` where there is no letter, or one that is not that of a technique.
pub(crate) fn choice_of(letters: &str) -> Option<Choice>
    ensures { result ≡ choice_of letters.now }
{
    let letters = letters.as_bytes();
    if letters.is_empty() || !are_techniques(letters) {
        return None;
    }
    Some(Choice {
        t: letters.contains(&b't'),
        s: letters.contains(&b's'),
        x: letters.contains(&b'x'),
        b: letters.contains(&b'b'),
        e: letters.contains(&b'e'),
    })
}

fn are_techniques(letters: &[u8]) -> bool
    ensures { result ≡ list_all is_technique letters.now }
{
    let mut rest = letters;
    while let [letter, after @ ..] = rest {
        if !is_technique(*letter) {
            return false;
        }
        rest = after;
    }
    true
}

fn is_technique(letter: u8) -> bool
    ensures { result ≡ is_technique letter }
{
    matches!(letter, b't' | b's' | b'x' | b'b' | b'e')
}

/// The form that the word names, or `None` where it names none.
pub(crate) fn form_of(word: &str) -> Option<Form>
    ensures { result ≡ form_of word.now }
{
    match word {
        "text" => Some(Form::Text),
        "binary" => Some(Form::Binary),
        _ => None,
    }
}
