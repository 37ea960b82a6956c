//! The kinds of entries that a summary counts.

ghost use Rattle.std.specs.Prelude.{◌≡◌, ◌≤◌, map, if◌then◌else◌};
ghost use Rattle.cp_logic.specs.Views.{entry_of, post_of};
ghost use Rattle.cp_summary.specs.Text.{count_of, is_of};

use cp_logic::{Entry, Journal, Post};

/// A kind of entry.
#[derive(Clone, Copy, PartialEq, Eq, Debug)]
pub(crate) enum Kind {
    Taut,
    Subsume,
    Strengthen,
    Block,
    Eliminate,
}

impl Kind {
    /// How many posts of the journal have an entry of the kind.
    pub(crate) fn count(self, journal: &Journal) -> usize
        ensures { result ≡ count_of self journal.now.items }
    {
        self.count_in(journal.as_slice())
    }

    fn count_in(self, posts: &[Post]) -> usize
        ensures { result ≡ count_of self (map (λ p. post_of p) posts.now) }
    {
        let mut count = 0;
        for post in posts {
            count += self.one_of(&post.entry);
        }
        count
    }

    // 1 for an entry of the kind, and 0 for another.
    fn one_of(self, entry: &Entry) -> usize
        ensures value { result ≡ (if is_of self (entry_of entry.now) then 1 else 0) }
        ensures most { result ≤ 1 }
    {
        if self.has(entry) { 1 } else { 0 }
    }

    fn has(self, entry: &Entry) -> bool
        ensures { result ≡ is_of self (entry_of entry.now) }
    {
        match entry {
            Entry::Taut { .. } => self == Kind::Taut,
            Entry::Subsume { .. } => self == Kind::Subsume,
            Entry::Strengthen { .. } => self == Kind::Strengthen,
            Entry::Block { .. } => self == Kind::Block,
            Entry::Eliminate { .. } => self == Kind::Eliminate,
            Entry::Look { .. } => false,
        }
    }
}
