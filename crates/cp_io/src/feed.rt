//! What a reader says after a piece.

/// What a reader says after a piece: it takes more, or the input has ended.
#[derive(Clone, Copy, Debug, PartialEq, Eq)]
pub enum Feed {
    /// It takes more.
    More,
    /// The line or word that ends the input was met, and the rest isn't looked at.
    Ended,
}
