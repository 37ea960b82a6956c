//! The rule of the table, and what each step on it tells.
ghost use Rattle.cp_yard.specs.Views.{founder, base_of, parent, child, joined, spent};
ghost use Rattle.cp_yard.specs.Rule.{Stands};
ghost use Rattle.cp_yard.specs.Steps.{tries_lock, tries_turn, returns_slot, takes_slot, unlocks, ends_turn, posts_entry};

use crate::item::Item;
use crate::view::View;
use atomic_table::{Join, Play, Seat, Split, Table, TableRule};
use cp_book::Book;
use std::alloc::Global;
use std::snapshot::Snapshot;

// The yard stands for one journal.
pub(crate) struct OneJournal;

impl TableRule<Item, View, Snapshot<Book>> for OneJournal {
    ghost holds = { λ key. Stands (base_of key.value) };

    ghost first = { λ key. founder key.value };
}

pub(crate) type Board = Table<Item, View, Snapshot<Book>, OneJournal, Global>;

pub(crate) type TableSeat = Seat<Item, View>;

pub(crate) struct TryLock;

impl Play<Item, View> for TryLock {
    ghost then = { tries_lock };
}

pub(crate) struct TryTurn;

impl Play<Item, View> for TryTurn {
    ghost then = { tries_turn };
}

pub(crate) struct ReturnSlot;

impl Play<Item, View> for ReturnSlot {
    ghost then = { returns_slot };
}

pub(crate) struct TakeSlot;

impl Play<Item, View> for TakeSlot {
    ghost then = { takes_slot };
}

pub(crate) struct Unlock;

impl Play<Item, View> for Unlock {
    ghost then = { unlocks };
}

pub(crate) struct EndTurn;

impl Play<Item, View> for EndTurn {
    ghost then = { ends_turn };
}

pub(crate) struct PostEntry;

impl Play<Item, View> for PostEntry {
    ghost then = { posts_entry };
}

pub(crate) struct SplitOff;

impl Split<View> for SplitOff {
    ghost left = { parent };

    ghost right = { child };
}

pub(crate) struct TakeIn;

impl Join<View> for TakeIn {
    ghost both = { joined };

    ghost spent = { spent };
}
