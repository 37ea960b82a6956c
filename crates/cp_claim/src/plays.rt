//! The steps of a seat: a draw, a split and a join.
ghost use Rattle.cp_claim.specs.Views.{Draws, parent, child, joined, spent};

use crate::view::ClaimView;
use atomic_table::{Join, Play, Split};

pub(crate) struct Draw;

impl Play<(), ClaimView> for Draw {
    ghost then = { Draws };
}

pub(crate) struct Fork;

impl Split<ClaimView> for Fork {
    ghost left = { parent };

    ghost right = { child };
}

pub(crate) struct Merge;

impl Join<ClaimView> for Merge {
    ghost both = { joined };

    ghost spent = { spent };
}
