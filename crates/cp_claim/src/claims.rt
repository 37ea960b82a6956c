//! The counter from which seats draw.
ghost use Rattle.std.specs.Prelude.{◌≡◌, ◌≢◌, ℕ, ◌+◌, ◌<◌, ◌≤◌, All, min, Some, None, IfOk, IfSome, IfNone};
ghost use Rattle.cp_claim.specs.Views.{founder, parent, child, joined, with_number, with_end, all_shares, times, ends, once_below, DrawsOnly, IsAlone, HasRead};

use crate::plays::{Draw, Fork, Merge};
use crate::seat::ClaimSeat;
use crate::view::Board;
use std::alloc::{AllocError, Global};
use std::marker::Model;

/// A counter from which seats draw each number below a limit once. It is one atomic word: a draw adds one, and what the word
/// was is the number, if it is below the limit.
#[derive(Drop)]
pub struct Claims {
    table: Board,
    limit: u64,
}

impl Model for Claims {
    ghost use Rattle.std.specs.Prelude.{◌≡◌, ◌≤◌};
    ghost use Rattle.cp_claim.specs.Views.{Counter};

    ghost Value = { Counter };

    ghost view = { λ c. record { table = c.table.shared.table_id; limit = c.limit } };

    ghost invariant = { λ c. (c.table.shared.table_id.words ≡ 1) × (c.table.shared.table_id.slots ≡ 0) × (c.table.shared.key ≡ c.limit) × (c.limit ≤ 2000000) };
}

impl Claims {
    /// Claims of the numbers below `n`, with their seat number 0. This is the one call that takes memory.
    pub fn new(alloc: Global, n: u64) -> Result<(Claims, ClaimSeat), AllocError>
        requires { n ≤ 2000000 }
        ensures { IfOk result (λ r. (r.0.limit ≡ n) × (r.1.counter ≡ r.0) × (r.1.view ≡ founder n)) }
    {
        let words = [0];
        let (table, place) = Board::of_words(alloc, words.as_slice(), &n)?;
        Ok((
            Claims { table, limit: n },
            ClaimSeat {
                place,
                number: 0,
                made: 1,
                has_ended: false,
            },
        ))
    }

    /// A number below the limit that no call gave before, above each that the seat has drawn; or None, exactly where the word
    /// that this seat read, now or at its first None, was at least the limit. After a None the seat answers None and reads no
    /// more.
    pub fn next(&self, seat: &mut ClaimSeat) -> Option<u64>
        requires counter { seat.old.counter ≡ self.now }
        ensures counter { seat.new.counter ≡ seat.old.counter }
        ensures number { IfSome result (λ x. (x < self.now.limit) × (seat.old.view.mine.end ≡ None) × (seat.new.view ≡ with_number x seat.old.view)) }
        ensures end { IfNone result ((word : ℕ) × (self.now.limit ≤ word) × (seat.new.view ≡ with_end word seat.old.view)) }
        ensures same { DrawsOnly seat.old.view seat.new.view }
        ensures rising { IfSome result (λ x. All (λ y. y < x) seat.old.view.drawn) }
        ensures again { (word : ℕ) → seat.old.view.mine.end ≡ Some word → (result ≡ None) × (seat.new.view ≡ seat.old.view) }
    {
        if seat.has_ended {
            return None;
        }
        let word = self.table.shared.fetch_add::<Draw>(&mut seat.place, 0, 1);
        if word < self.limit {
            return Some(word);
        }
        seat.has_ended = true;
        None
    }

    /// A new seat. Its number is how many seats were made before it.
    pub fn split(&self, seat: &mut ClaimSeat) -> ClaimSeat
        requires counter { seat.old.counter ≡ self.now }
        requires founder { seat.old.view.mine.number ≡ 0 }
        requires room { seat.old.view.made < 4294967295 }
        ensures counter { (seat.new.counter ≡ self.now) × (result.counter ≡ self.now) }
        ensures seat { seat.new.view ≡ parent seat.old.view }
        ensures new { result.view ≡ child seat.old.view }
    {
        let place = self.table.shared.split_seat::<Fork>(&mut seat.place);
        let number = seat.made;
        seat.made += 1;
        ClaimSeat {
            place,
            number,
            made: 0,
            has_ended: false,
        }
    }

    /// The seat takes the other in: it keeps the numbers that both drew, and which seat numbers have ended.
    pub fn join(&self, seat: &mut ClaimSeat, other: ClaimSeat)
        requires counter { (seat.old.counter ≡ self.now) × (other.counter ≡ self.now) }
        requires other { other.view.mine.number ≢ 0 }
        ensures counter { seat.new.counter ≡ seat.old.counter }
        ensures seat { seat.new.view ≡ joined seat.old.view other.view }
    {
        let ClaimSeat {
            place,
            number: _,
            made: _,
            has_ended: _,
        } = other;
        self.table.shared.join_seat::<Merge>(&mut seat.place, place);
    }

    /// Ends the claims with their only seat, and answers the word. The seat then has drawn each number below the limit and
    /// below the word, once. Where a seat number has ended, the word has passed the limit.
    pub fn close(self, seat: ClaimSeat) -> u64
        requires counter { seat.counter ≡ self }
        requires alone { IsAlone seat.view }
        ensures drawn { (x : ℕ) → times x seat.view.drawn ≡ once_below x (min self.limit result) }
        ensures ended { 0 < ends (all_shares seat.view) → self.limit ≤ result }
        ensures read { All (HasRead self.limit result) (all_shares seat.view) }
        ensures steps { result ≡ min self.limit result + ends (all_shares seat.view) }
    {
        let Claims { table, limit: _ } = self;
        let ClaimSeat {
            place,
            number: _,
            made: _,
            has_ended: _,
        } = seat;
        let closed = table.close_with(place);
        let word = closed.word(0);
        closed.free();
        word
    }
}
