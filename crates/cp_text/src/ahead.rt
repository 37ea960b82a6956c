//! What is ahead of a reader in a text.

ghost use Rattle.std.specs.Prelude.{◌<◌, ◌+◌, ◌^◌, length};

/// What is left of a text whose last word may be cut.
#[derive(Clone, Copy)]
pub struct Ahead<'a> {
    /// The bytes that are left.
    pub text: &'a [u8],
    /// How many bytes stand before it.
    pub at: u64,
    /// Whether a word that ends where the text ends isn't looked at.
    pub cut: bool,
    ghost fits: { at + length text.now < 2 ^ 64 },
}
