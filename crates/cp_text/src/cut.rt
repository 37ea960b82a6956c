//! What is seen of an input that may be longer than its limit.

ghost use Rattle.std.specs.Prelude.{◌≡◌, ◌+◌, ◌<◌, ◌^◌, length};
ghost use Rattle.cp_text.specs.Items.{IsNextSeen};
ghost use Rattle.cp_text.specs.Ahead.{IsNextWhole};
ghost use Rattle.cp_text.specs.Cut.{goes_on, IsSeen};

use crate::ahead::Ahead;
use crate::text::{Item, is_separator, next_item};

/// The bytes of an input within its limit.
#[derive(Drop)]
pub struct Seen<'a> {
    /// The bytes within the limit. Their last word is cut where it goes on right behind them.
    pub ahead: Ahead<'a>,
    /// Whether the input is longer than the limit.
    pub past: bool,
}

/// What a limit of bytes lets a reader see of an input.
pub fn within(input: &[u8], limit: u64) -> Seen<'_>
    ensures { IsSeen limit input.now result }
{
    if input.len() as u64 <= limit {
        return Seen {
            ahead: Ahead {
                text: input,
                at: 0,
                cut: false,
            },
            past: false,
        };
    }
    let (text, behind) = input.split_at(limit as usize);
    Seen {
        ahead: Ahead {
            text,
            at: 0,
            cut: begins_in_word(behind),
        },
        past: true,
    }
}

fn begins_in_word(bytes: &[u8]) -> bool
    ensures { result ≡ goes_on bytes.now }
{
    match bytes {
        [] => false,
        [first, ..] => !is_separator(*first),
    }
}

/// The next item of a text that begins at a place, where a last word that is cut isn't looked at. Its contract tells both the lines of
/// the whole text and the lines that are seen.
pub fn next_seen(text: &[u8], place: u64, cut: bool) -> Item<'_>
    requires { place + length text.now < 2 ^ 64 }
    ensures whole { IsNextWhole cut place text.now result }
    ensures seen { IsNextSeen cut place text.now result }
{
    match next_item(text, place) {
        Item::Word { rest, .. } if cut && rest.is_empty() => Item::End {
            at: place + text.len() as u64,
        },
        item => item,
    }
}
