//! What the table under the claims knows of its seats, and the rule that it keeps.
use atomic_table::{Seat, Table, TableRule};
use std::alloc::Global;
use std::marker::Model;

// What a seat knows. No value of it is made: contracts alone speak of it.
pub(crate) struct ClaimView {}

impl Model for ClaimView {
    ghost use Rattle.cp_claim.specs.Views.{View, spent};

    ghost Value = { View };

    ghost view = { λ v. spent };
}

// Each number below the limit is given once.
pub(crate) struct EachOnce;

impl TableRule<(), ClaimView, u64> for EachOnce {
    ghost use Rattle.cp_claim.specs.Rule.{GivesEachOnce};
    ghost use Rattle.cp_claim.specs.Views.{founder};

    ghost holds = { GivesEachOnce };

    ghost first = { founder };
}

pub(crate) type Board = Table<(), ClaimView, u64, EachOnce, Global>;

pub(crate) type TableSeat = Seat<(), ClaimView>;
