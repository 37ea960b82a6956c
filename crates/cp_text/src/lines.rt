//! Where the lines of a text stop.

ghost use Rattle.std.specs.Prelude.{◌≡◌, ◌<◌, ◌≤◌, ◌+◌, ◌^◌, length, option_copied, Bool};
ghost use Rattle.cp_text.specs.Text.{lines_from};
ghost use Rattle.cp_text.specs.Cut.{lines_seen};
ghost use Rattle.cp_text.specs.Stops.{SkipsLine, StopsWithin, lines_behind, seen_behind};

use crate::text::{Item, next_item};

/// Where a line ends, and what follows its line feed, if it has one.
#[derive(Drop)]
pub struct LineStop<'a> {
    pub at: u64,
    pub rest: Option<&'a [u8]>,
}

/// Passes over a line. Whether its last word is cut doesn't matter here: the contract tells the lines that are seen, cut or not.
pub fn skip_line(text: &[u8], place: u64) -> LineStop<'_>
    requires { place + length text.now < 2 ^ 64 }
    ensures skips { SkipsLine (lines_from place text.now) result.at (lines_behind result.at (option_copied result.rest)) }
    ensures seen { (cut : Bool) → SkipsLine (lines_seen cut place text.now) result.at (seen_behind cut result.at (option_copied result.rest)) }
    ensures within { StopsWithin place text.now result.at (option_copied result.rest) }
{
    let mut rest = text;
    let mut at = place;
    'words: loop {
        match next_item(rest, at) {
            Item::Word {
                at: begin,
                word,
                rest: after,
            } => {
                at = begin + word.len() as u64;
                rest = after;
            }
            Item::LineEnd {
                at: end,
                rest: after,
            } => {
                return LineStop {
                    at: end,
                    rest: Some(after),
                };
            }
            Item::End { at: end } => {
                return LineStop {
                    at: end,
                    rest: None,
                };
            }
        }
    }
}
