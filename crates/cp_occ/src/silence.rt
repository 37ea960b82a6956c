//! Silence: the rules by which a search at a variable gave nothing.
ghost use Rattle.std.specs.Prelude.{◌≡◌, IsTrue};

use cp_logic::{Choice, Rules};

/// The rules of a search: what they choose, and their bound. A search reads nothing else of them.
#[derive(Clone, Copy)]
pub(crate) struct Searched {
    choice: Choice,
    bound: u64,
}

impl Searched {
    pub(crate) fn by(rules: &Rules) -> Searched
        ensures choice { result.choice ≡ rules.now.choice }
        ensures bound { result.bound ≡ rules.now.bound }
    {
        Searched {
            choice: rules.choice,
            bound: rules.bound,
        }
    }

    // Whether a search by these rules is the same.
    pub(crate) fn is_by(&self, rules: &Rules) -> bool
        ensures choice { IsTrue result → rules.now.choice ≡ self.now.choice }
        ensures bound { IsTrue result → rules.now.bound ≡ self.now.bound }
    {
        rules.choice == self.choice && rules.bound == self.bound
    }
}
