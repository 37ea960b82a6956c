//! A seat that draws numbers from claims.
ghost use Rattle.std.specs.Prelude.{◌≡◌};

use crate::view::TableSeat;
use std::marker::Model;

/// A seat at some claims. Its number tells it from the other seats of these claims: the first has 0, the next 1, and so on.
/// Contracts see the claims that it draws from, and what it knows: the numbers drawn, its own number, and the numbers of
/// the seats that it took in, each with whether it has ended.
#[derive(Drop)]
pub struct ClaimSeat {
    pub(crate) place: TableSeat,
    pub(crate) number: u32,
    // The seats made so far, where this is number 0.
    pub(crate) made: u32,
    pub(crate) has_ended: bool,
}

impl Model for ClaimSeat {
    ghost use Rattle.std.specs.Prelude.{◌≡◌, ◌≤◌, true, [], is_some};
    ghost use Rattle.std.specs.Option.{ForSome};
    ghost use Rattle.cp_claim.specs.Views.{Sitting};

    ghost Value = { Sitting };

    ghost view = { λ s. record { counter = record { table = s.place.table_id; limit = s.place.me.0.limit }; view = s.place.me.0 } };

    ghost invariant = { λ s. (s.place.me.1 ≡ []) × (s.place.me.0.lives ≡ true) × (s.place.me.0.mine.number ≡ s.number) × (s.place.me.0.made ≡ s.made) × (is_some s.place.me.0.mine.end ≡ s.has_ended) × ForSome s.place.me.0.mine.end (λ e. s.place.me.0.limit ≤ e) };
}

impl ClaimSeat {
    /// The seat's number.
    pub fn number(&self) -> u32
        ensures { result ≡ self.now.view.mine.number }
    {
        self.number
    }

    /// How many seats were made of the claims, this one included. Only number 0 knows.
    pub fn made(&self) -> u32
        requires { self.now.view.mine.number ≡ 0 }
        ensures { result ≡ self.now.view.made }
    {
        self.made
    }
}
