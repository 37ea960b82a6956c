//! What a seat knows, as a type.
use std::marker::Model;

/// What a seat knows. No value of it is made: contracts alone speak of it.
pub(crate) struct View {}

impl Model for View {
    ghost use Rattle.cp_yard.specs.Views.{SeatView, spent};

    ghost Value = { SeatView };

    ghost view = { λ v. spent };
}
