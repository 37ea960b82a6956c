//! The yard: locks on variables, and a turn that has the book.
ghost use Rattle.std.specs.Prelude.{◌≡◌, ◌≢◌, ℕ, ◌+◌, ◌-◌, ◌<◌, ◌≤◌, ◌^◌, List, [], ◌∷◌, ◌++◌, length, IfOk, IfErr, Some, None};
ghost use Rattle.std.specs.List.{All};
ghost use Rattle.cp_logic.specs.declared.named.Named.{Named};
ghost use Rattle.cp_logic.specs.Journals.{Post};
ghost use Rattle.cp_book.specs.Views.{current};
ghost use Rattle.cp_occ.specs.Changes.{AreCellsOf};
ghost use Rattle.cp_yard.specs.Views.{Met, MetTurn, base_of, founder, all_shares, held_of, noted, with_lock, with_turn, unlocked, without_turn, with_post, parent, child, joined};
ghost use Rattle.cp_yard.specs.Rule.{clauses_at, AreClausesAt, HoldsAll, IsAlone, Account};

use crate::item::Item;
use crate::places::{items_of, take_book, take_cell, zeros};
use crate::plays::{
    Board, EndTurn, PostEntry, ReturnSlot, SplitOff, TakeIn, TakeSlot, TryLock, TryTurn, Unlock,
};
use crate::seat::{Record, Seat};
use cp_book::Book;
use cp_occ::{Cell, Cells};
use std::alloc::{AllocError, Global};
use std::marker::Model;
use std::snapshot::Snapshot;

/// The lock or the turn is held by seat number `by`, which is another.
#[derive(Clone, Copy, PartialEq, Eq, Debug)]
pub struct Held {
    pub by: u32,
}

/// The position of a post in the journal, counted from 0.
#[derive(Clone, Copy, PartialEq, Eq, Debug)]
pub struct Receipt {
    pub position: u64,
}

/// What a yard leaves: its book and its cells.
#[derive(Drop)]
pub struct Ground {
    pub book: Book,
    pub cells: Cells,
}

/// The cells and the book of a run, for seats that share them. No call waits, and only `new` takes memory.
#[derive(Drop)]
pub struct Yard {
    table: Board,
    // The emptied list of cells, with its room.
    cells: Cells,
    vars: u32,
}

impl Held {
    // The seat that a word names, which is 1 more than its number.
    fn named_by(found: u64) -> Held
        requires some { 0 < found }
        requires high { found ≤ 2 ^ 32 }
        ensures { result.by ≡ found - 1 }
    {
        Held {
            by: (found - 1) as u32,
        }
    }
}

impl Model for Yard {
    ghost use Rattle.std.specs.Prelude.{◌≡◌, ◌+◌, ◌≤◌, []};
    ghost use Rattle.cp_yard.specs.Views.{base_of};
    ghost use Rattle.cp_yard.specs.Sitting.{YardView};

    ghost Value = { YardView };

    ghost view = { λ y. record { table = y.table.shared.table_id; base = base_of y.table.shared.key.value } };

    ghost invariant = { λ y.
        (y.table.shared.table_id.words ≡ y.vars + 1) × (y.table.shared.table_id.slots ≡ y.vars + 1)
        × (y.cells.items ≡ []) × (y.vars ≤ y.cells.spare)
        × (y.vars ≡ y.table.shared.key.value.first.variables) × (y.vars ≤ 2000000) };
}

impl Yard {
    /// A yard over the book and the cells of its current clauses, and the first seat, of number 0, to which the book's posts belong.
    /// The error comes only for want of memory; then both are dropped.
    pub fn new(alloc: Global, book: Book, cells: Cells) -> Result<(Yard, Seat), AllocError>
        requires posts { All (λ p. p.worker ≡ 0) book.posts }
        requires cells { AreCellsOf (current book) cells.items }
        ensures table { IfOk result (λ r. r.1.table ≡ r.0.table) }
        ensures yard { IfOk result (λ r. r.0.base ≡ base_of book) }
        ensures seat { IfOk result (λ r. r.1.view ≡ founder book) }
    {
        book.is_legal();
        let vars = book.clauses().vars();
        let about = Snapshot::of(&book);
        let mut cells = cells;
        let words = zeros(alloc, vars as usize + 1)?;
        let items = items_of(alloc, book, &mut cells)?;
        let Ok((table, place)) = Board::new(alloc, words.as_slice(), items, &about) else {
            return Err(AllocError);
        };
        Ok((Yard { table, cells, vars }, Seat::first(place)))
    }

    /// The number of variables, of which the first is 1.
    pub fn vars(&self) -> u32
        ensures value { result ≡ self.now.base.formula.variables }
        ensures most { result ≤ 2000000 }
    {
        self.vars
    }

    /// Splits off a new seat, whose number is that of the seats that were made before.
    pub fn split(&self, seat: &mut Seat) -> Seat
        requires table { seat.old.table ≡ self.now.table }
        requires first { seat.old.view.number ≡ 0 }
        requires few { seat.old.view.made + 1 < 2 ^ 32 }
        ensures tables { (seat.new.table ≡ seat.old.table) × (result.table ≡ seat.old.table) }
        ensures seat { seat.new.view ≡ parent seat.old.view }
        ensures new { result.view ≡ child seat.old.view }
    {
        let number = seat.made;
        let place = self.table.shared.split_seat::<SplitOff>(&mut seat.place);
        seat.made += 1;
        Seat {
            place,
            number,
            made: 0,
        }
    }

    /// Takes in a seat that holds nothing, with its posts and notes.
    pub fn join(&self, seat: &mut Seat, other: Seat)
        requires tables { (seat.old.table ≡ self.now.table) × (other.table ≡ self.now.table) }
        requires number { other.view.number ≢ 0 }
        requires nothing { (other.view.held ≡ []) × (other.view.turn ≡ None) }
        ensures table { seat.new.table ≡ seat.old.table }
        ensures seat { seat.new.view ≡ joined seat.old.view other.view }
    {
        let place = other.into_place();
        let shared = &self.table.shared;
        shared.join_seat::<TakeIn>(&mut seat.place, place);
    }

    /// One try of the lock of a variable. The cell has the variable's clauses after the journal of that moment.
    pub fn try_lock(&self, seat: &mut Seat, var: u32) -> Result<Cell, Held>
        requires table { seat.old.table ≡ self.now.table }
        requires low { 1 ≤ var }
        requires high { var ≤ self.now.base.formula.variables }
        requires free { held_of var seat.old.view.held ≡ None }
        ensures table { seat.new.table ≡ seat.old.table }
        ensures got { IfOk result (λ c. (c.variable ≡ var) × (seat.new.view ≡ with_lock var c.clauses seat.old.view)) }
        ensures clauses { IfOk result (λ c. AreClausesAt seat.old.view.base var c.clauses) }
        ensures met { IfErr result (λ m. (m.by ≢ seat.old.view.number) × (seat.new.view ≡ noted (Met var m.by) seat.old.view)) }
    {
        let shared = &self.table.shared;
        let slot = var as usize;
        let word = seat.word();
        let found = shared.compare_exchange::<TryLock>(&mut seat.place, slot, 0, word);
        if found != 0 {
            return Err(Held::named_by(found));
        }
        let item = shared.exchange(&mut seat.place, slot, Item::Nothing);
        shared.load::<ReturnSlot>(&mut seat.place, slot);
        match item {
            Item::OfVariable(cell) => Ok(cell),
            _ => unreachable!(),
        }
    }

    /// Gives the lock of a variable back with its cell, whose clauses are those that the seat has.
    pub fn unlock(&self, seat: &mut Seat, var: u32, cell: Cell)
        requires table { seat.old.table ≡ self.now.table }
        requires high { var ≤ self.now.base.formula.variables }
        requires cell { cell.variable ≡ var }
        requires held { held_of var seat.old.view.held ≡ Some cell.clauses }
        ensures table { seat.new.table ≡ seat.old.table }
        ensures unlocked { seat.new.view ≡ unlocked var seat.old.view }
    {
        let shared = &self.table.shared;
        let slot = var as usize;
        shared.load::<TakeSlot>(&mut seat.place, slot);
        shared.exchange(&mut seat.place, slot, Item::OfVariable(cell));
        shared.store::<Unlock>(&mut seat.place, slot, 0);
    }

    /// One try of the turn. What the seat holds are the clauses after the book's posts.
    pub fn try_turn(&self, seat: &mut Seat) -> Result<Book, Held>
        requires table { seat.old.table ≡ self.now.table }
        requires turn { seat.old.view.turn ≡ None }
        ensures table { seat.new.table ≡ seat.old.table }
        ensures base { IfOk result (λ b. base_of b ≡ seat.old.view.base) }
        ensures got { IfOk result (λ b. seat.new.view ≡ with_turn b.posts seat.old.view) }
        ensures held { IfOk result (λ b. (x : ℕ) (cs : List Named) → held_of x seat.old.view.held ≡ Some cs → cs ≡ clauses_at (base_of b) b.posts x) }
        ensures met { IfErr result (λ m. (m.by ≢ seat.old.view.number) × (seat.new.view ≡ noted (MetTurn m.by) seat.old.view)) }
    {
        let shared = &self.table.shared;
        let word = seat.word();
        let found = shared.compare_exchange::<TryTurn>(&mut seat.place, 0, 0, word);
        if found != 0 {
            return Err(Held::named_by(found));
        }
        let item = shared.exchange(&mut seat.place, 0, Item::Nothing);
        shared.load::<ReturnSlot>(&mut seat.place, 0);
        match item {
            Item::OfTurn(book) => Ok(book),
            _ => unreachable!(),
        }
    }

    /// Ends a turn with the posts as they were.
    pub fn end_turn(&self, seat: &mut Seat, book: Book)
        requires table { seat.old.table ≡ self.now.table }
        requires base { base_of book ≡ seat.old.view.base }
        requires turn { seat.old.view.turn ≡ Some book.posts }
        ensures table { seat.new.table ≡ seat.old.table }
        ensures seat { seat.new.view ≡ without_turn seat.old.view }
    {
        let shared = &self.table.shared;
        shared.load::<TakeSlot>(&mut seat.place, 0);
        shared.exchange(&mut seat.place, 0, Item::OfTurn(book));
        shared.store::<EndTurn>(&mut seat.place, 0, 0);
    }

    /// Ends a turn with one post more, of the seat's number and of variables that it holds. The clauses that it has of them are then
    /// those after the post.
    pub fn end_turn_with(&self, seat: &mut Seat, book: Book) -> Receipt
        requires table { seat.old.table ≡ self.now.table }
        requires base { base_of book ≡ seat.old.view.base }
        requires post { (h : List Post) × (p : Post) × (seat.old.view.turn ≡ Some h) × (book.posts ≡ h ++ p ∷ []) × (p.worker ≡ seat.old.view.number) × HoldsAll p.entry seat.old.view.held }
        ensures table { seat.new.table ≡ seat.old.table }
        ensures position { (h : List Post) (p : Post) → seat.old.view.turn ≡ Some h → book.posts ≡ h ++ p ∷ [] → result.position ≡ length h }
        ensures seat { (h : List Post) (p : Post) → seat.old.view.turn ≡ Some h → book.posts ≡ h ++ p ∷ [] → seat.new.view ≡ with_post (length h) p seat.old.view }
        ensures held { (x : ℕ) (cs : List Named) → held_of x seat.new.view.held ≡ Some cs → cs ≡ clauses_at (base_of book) book.posts x }
    {
        book.is_legal();
        let position = book.journal().len() as u64 - 1;
        let shared = &self.table.shared;
        shared.load::<TakeSlot>(&mut seat.place, 0);
        shared.exchange(&mut seat.place, 0, Item::OfTurn(book));
        shared.store::<PostEntry>(&mut seat.place, 0, 0);
        Receipt { position }
    }

    /// The book and the cells of its current clauses, and what the last seat knew: its shares account for the journal.
    pub fn close(self, seat: Seat) -> (Ground, Record)
        requires table { seat.table ≡ self.table }
        requires alone { IsAlone seat.view }
        ensures base { base_of result.0.book ≡ self.base }
        ensures cells { AreCellsOf (current result.0.book) result.0.cells.items }
        ensures record { result.1 ≡ seat.view }
        ensures account { Account self.base result.0.book.posts (all_shares seat.view) seat.view.made }
    {
        let Yard { table, cells, vars } = self;
        let mut cells = cells;
        let record = Record::of(&seat);
        let mut closed = table.close_with(seat.into_place());
        let book = take_book(&mut closed);
        for x in 0..vars {
            cells.push_reserved(take_cell(&mut closed, x as usize + 1));
        }
        closed.free();
        (Ground { book, cells }, record)
    }
}
