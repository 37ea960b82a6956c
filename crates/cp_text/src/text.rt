//! The words and lines of a text, one after the other.

ghost use Rattle.std.specs.Prelude.{◌≡◌, ◌+◌, ◌≤◌, ◌<◌, ◌^◌, ◌||◌, ◌==◌, length};
ghost use Rattle.cp_text.specs.Text.{is_blank, separates};
ghost use Rattle.cp_text.specs.Items.{IsNext, IsWordFront};

/// What comes next in a text: a word with what follows it, the end of a line, or the end of the text.
#[derive(Drop)]
pub enum Item<'a> {
    Word {
        at: u64,
        word: &'a [u8],
        rest: &'a [u8],
    },
    LineEnd {
        at: u64,
        rest: &'a [u8],
    },
    End {
        at: u64,
    },
}

fn is_blank_byte(byte: u8) -> bool
    ensures { result ≡ is_blank byte }
{
    byte == b' ' || byte == b'\t' || byte == b'\r'
}

pub(crate) fn is_separator(byte: u8) -> bool
    ensures { result ≡ separates byte }
{
    byte == b'\n' || is_blank_byte(byte)
}

// How long the word is that a text begins with.
fn word_len(text: &[u8]) -> usize
    ensures { IsWordFront text.now result }
{
    for (count, byte) in text.iter().enumerate() {
        if is_separator(*byte) {
            return count;
        }
    }
    text.len()
}

/// The next item of a text that begins at a place.
#[tactic(auto, unfolding(crate::specs::Text::lines_from))]
pub fn next_item(text: &[u8], place: u64) -> Item<'_>
    requires { place + length text.now < 2 ^ 64 }
    ensures { IsNext place text.now result }
{
    let mut rest = text;
    let mut at = place;
    while let [first, after @ ..] = rest {
        if *first == b'\n' {
            return Item::LineEnd { at, rest: after };
        }
        if !is_blank_byte(*first) {
            let (word, rest) = rest.split_at(word_len(rest));
            return Item::Word { at, word, rest };
        }
        rest = after;
        at += 1;
    }
    Item::End { at }
}
