//! What the header line says.

ghost use Rattle.std.specs.Prelude.{◌≤◌};

use cp_text::LineStop;

/// The number of variables that a header names, and where its line stops.
#[derive(Drop)]
pub(crate) struct Header<'a> {
    pub variables: u32,
    pub stop: LineStop<'a>,
    ghost most: { variables ≤ 2000000 },
}
