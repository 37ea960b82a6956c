//! Seats, and the record of the last one.
ghost use Rattle.std.specs.Prelude.{◌≡◌, ◌+◌, [], true};

use crate::plays::TableSeat;
use std::marker::Model;
use std::snapshot::Snapshot;

/// A place at a yard, for one thread.
///
/// Contracts see its number, the variables that it holds with their clauses, whether it has the turn, and for its own number and for
/// those of the seats that it took in the posts and what each try met.
#[derive(Drop)]
pub struct Seat {
    pub(crate) place: TableSeat,
    pub(crate) number: u32,
    // How many seats were made, for number 0.
    pub(crate) made: u32,
}

impl Model for Seat {
    ghost use Rattle.std.specs.Prelude.{◌≡◌, true, []};
    ghost use Rattle.cp_yard.specs.Sitting.{Sitting};

    ghost Value = { Sitting };

    ghost view = { λ s. record { table = s.place.table_id; view = s.place.me.0 } };

    ghost invariant = { λ s.
        (s.place.me.1 ≡ []) × (s.place.me.0.lives ≡ true) × (s.place.me.0.hand ≡ 0)
        × (s.place.me.0.number ≡ s.number) × (s.number ≡ 0 → s.place.me.0.made ≡ s.made) };
}

impl Seat {
    /// The number of the seat, which no other seat of its yard has. That of the first is 0.
    pub fn number(&self) -> u32
        ensures { result ≡ self.now.view.number }
    {
        self.number
    }

    /// How many seats of the yard were made, itself included.
    pub fn made(&self) -> u32
        requires { self.now.view.number ≡ 0 }
        ensures { result ≡ self.now.view.made }
    {
        self.made
    }

    // What stands in the words of the locks and of the turn that the seat has.
    pub(crate) fn word(&self) -> u64
        ensures { result ≡ self.now.view.number + 1 }
    {
        self.number as u64 + 1
    }

    // What the seat steps with.
    pub(crate) fn into_place(self) -> TableSeat
        ensures table { result.table_id ≡ self.table }
        ensures view { result.me.0 ≡ self.view }
        ensures kept { (result.me.1 ≡ []) × (result.me.0.lives ≡ true) }
    {
        let Seat {
            place,
            number: _,
            made: _,
        } = self;
        place
    }

    // The seat that is made with the table.
    pub(crate) fn first(place: TableSeat) -> Seat
        requires alone { (place.me.1 ≡ []) × (place.me.0.lives ≡ true) × (place.me.0.hand ≡ 0) }
        requires number { (place.me.0.number ≡ 0) × (place.me.0.made ≡ 1) }
        ensures table { result.table ≡ place.table_id }
        ensures view { result.view ≡ place.me.0 }
    {
        Seat {
            place,
            number: 0,
            made: 1,
        }
    }
}

/// What the last seat of a yard knew.
#[derive(Drop)]
pub struct Record {
    seat: Snapshot<Seat>,
}

impl Model for Record {
    ghost use Rattle.cp_yard.specs.Views.{SeatView};

    ghost Value = { SeatView };

    ghost view = { λ r. r.seat.value.view };
}

impl Record {
    pub(crate) fn of(seat: &Seat) -> Record
        ensures { result ≡ seat.now.view }
    {
        Record {
            seat: Snapshot::of(seat),
        }
    }
}
