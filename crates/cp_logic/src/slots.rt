//! The slots of a formula: the search for a number, and the iterator over what stands in them.
ghost use Rattle.std.specs.Prelude.{◌≡◌, ◌≢◌, ◌<◌, ◌^◌, Some, None, length, OnOk, OnErr, IfSome, IfNone, slice_index_or};
ghost use Rattle.std.specs.Option.{option_copied};
ghost use Rattle.std.specs.List.{All};
ghost use Rattle.std.specs.Iterator.{YieldsFirstBy, item_count};
ghost use Rattle.cp_logic.specs.Clauses.{IsAscending};
ghost use Rattle.cp_logic.specs.Formulas.{find_number};
ghost use Rattle.cp_logic.specs.Slots.{standing, slot_numbers, Splits, IsFilled};
ghost use Rattle.cp_logic.specs.Items.{named_item};

use crate::clauses::Clause;
use std::alloc::AllocError;
use std::marker::Model;
use std::mem;

// Half of the bits of a number above which no clause has one.
const SPAN: u64 = 4_294_967_296;

/// A number, and the clause under it, where that wasn't removed.
///
/// The number has 40 bits, in two parts, so that a slot takes 16 bytes.
#[derive(Drop)]
pub(crate) struct Slot {
    kept: Kept,
}

#[derive(Drop)]
pub(crate) enum Kept {
    Full { high: u8, low: u32, clause: Clause },
    Empty { high: u8, low: u32 },
}

impl Model for Slot {
    ghost use Rattle.cp_logic.specs.Slots.{Slot, slot_in};

    ghost Value = { Slot };

    ghost view = { λ s. slot_in s.kept };
}

impl Slot {
    /// The slot of the number, with the clause.
    pub(crate) fn new(number: u64, clause: Clause) -> Slot
        requires { number < 2 ^ 40 }
        ensures { result ≡ record { number = number; clause = Some clause } }
    {
        let high = (number / SPAN) as u8;
        let low = (number % SPAN) as u32;
        Slot {
            kept: Kept::Full { high, low, clause },
        }
    }

    /// The number.
    pub(crate) fn number(&self) -> u64
        ensures value { result ≡ self.now.number }
        ensures high { result < 2 ^ 40 }
    {
        match &self.kept {
            Kept::Full { high, low, .. } | Kept::Empty { high, low } => u64::from(*high) * SPAN
                + u64::from(*low),
        }
    }

    /// The clause, if there is one.
    pub(crate) fn clause(&self) -> Option<&Clause>
        ensures { option_copied result ≡ self.now.clause }
    {
        match &self.kept {
            Kept::Full { clause, .. } => Some(clause),
            Kept::Empty { .. } => None,
        }
    }

    /// Puts the clause in the place of what stands there.
    pub(crate) fn fill(&mut self, clause: Clause)
        ensures { self.new ≡ record { number = self.old.number; clause = Some clause } }
    {
        *self = Slot::new(self.number(), clause);
    }

    /// Takes the clause away, if there is one.
    pub(crate) fn take(&mut self) -> Option<Clause>
        ensures value { result ≡ self.old.clause }
        ensures emptied { self.new ≡ record { number = self.old.number; clause = None } }
    {
        let (high, low) = match &self.kept {
            Kept::Full { high, low, .. } | Kept::Empty { high, low } => (*high, *low),
        };
        match mem::replace(&mut self.kept, Kept::Empty { high, low }) {
            Kept::Full { clause, .. } => Some(clause),
            Kept::Empty { .. } => None,
        }
    }
}

/// The clauses of a formula with their numbers, by ascending number, seen as the list of those that are left.
#[derive(Drop)]
pub struct FormulaIter<'a> {
    pub(crate) slots: &'a [Slot],
}

impl<'a> Model for FormulaIter<'a> {
    ghost use Rattle.std.specs.Prelude.{List};
    ghost use Rattle.cp_logic.specs.declared.named.Named.{Named};

    ghost Value = { List Named };

    ghost use Rattle.cp_logic.specs.Slots.{standing};

    ghost view = { λ it. standing it.slots.now };
}

impl<'a> Iterator for FormulaIter<'a> {
    type Item = (u64, &'a Clause);

    ghost next_gives = { YieldsFirstBy named_item (λ rest. rest) };

    ghost remaining = { item_count (λ rest. rest) };

    fn next(&mut self) -> Option<(u64, &'a Clause)> {
        while let Some((slot, rest)) = self.slots.split_first() {
            self.slots = rest;
            if let Some(clause) = slot.clause() {
                return Some((slot.number(), clause));
            }
        }
        None
    }
}

// The index of the slot of the number, if there is one.
pub(crate) fn place(slots: &[Slot], number: u64) -> Option<usize>
    requires { IsAscending (slot_numbers slots.now) }
    ensures some { IfSome result (λ i. (i < length slots.now) × ((d : _) → (slice_index_or slots.now i d).number ≡ number)) }
    ensures none { IfNone result (All (λ s. s.number ≢ number) slots.now) }
{
    let at = spot(slots, number);
    if at < slots.len() && slots[at].number() == number {
        Some(at)
    } else {
        None
    }
}

// Puts the clause under the number, under which none stands: into its empty slot, or else into a new one.
pub(crate) fn fill(slots: &mut Vec<Slot>, number: u64, clause: Clause) -> Result<(), AllocError>
    requires high { number < 2 ^ 40 }
    requires rising { IsAscending (slot_numbers slots.old.items) }
    requires free { find_number (standing slots.old.items) number ≡ None }
    ensures ok { OnOk result (IsFilled slots.old.items number clause slots.new.items) }
    ensures err { OnErr result (slots.new.items ≡ slots.old.items) }
{
    let at = spot(slots.as_slice(), number);
    if at < slots.len() && slots[at].number() == number {
        slots[at].fill(clause);
        return Ok(());
    }
    slots.insert(at, Slot::new(number, clause))?;
    Ok(())
}

// The number of slots with lesser numbers. Numbers are mostly handed out without gaps, so a slot that has the number
// mostly stands as far from the first slot as their numbers are apart.
fn spot(slots: &[Slot], number: u64) -> usize
    requires { IsAscending (slot_numbers slots.now) }
    ensures { Splits slots.now number result }
{
    if let Some(first) = slots.first() {
        let guess = number.wrapping_sub(first.number()) as usize;
        if guess < slots.len() && slots[guess].number() == number {
            return guess;
        }
    }
    search(slots, number)
}

// The same by halving.
fn search(slots: &[Slot], number: u64) -> usize
    requires { IsAscending (slot_numbers slots.now) }
    ensures { Splits slots.now number result }
{
    let mut low = 0;
    let mut high = slots.len();
    while low < high {
        let middle = low + (high - low) / 2;
        if slots[middle].number() < number {
            low = middle + 1;
        } else {
            high = middle;
        }
    }
    low
}
