//! A commit: the post of one entry under the locks of a hood.
//!
//! The turn is tried a given number of times. Under it the entry gets its clause numbers, the book takes it, and the turn ends with
//! the post; the hood's cells follow after that, since their locks are still held. The entry fits in the centre's cell, which nobody else
//! changes, so it is legal without a test.
ghost use Rattle.std.specs.Prelude.{◌≡◌, ◌+◌, ◌<◌, ◌≤◌, ℕ, List, length, Some, None, IfOk, IfErr, IfSome, IfNone, IsTrue, IsFalse};
ghost use Rattle.cp_logic.specs.declared.named.Named.{Named};
ghost use Rattle.cp_logic.specs.Formulas.{has_empty};
ghost use Rattle.cp_logic.specs.Entries.{is_at};
ghost use Rattle.cp_logic.specs.Journals.{Post, commits};
ghost use Rattle.cp_logic.specs.Sweeps.{is_spent};
ghost use Rattle.cp_logic.specs.Views.{entry_of};
ghost use Rattle.cp_book.specs.Answers.{passes_numbers};
ghost use Rattle.cp_book.specs.Views.{current};
ghost use Rattle.cp_occ.specs.Changes.{places_of, HasRoom};
ghost use Rattle.cp_yard.specs.Views.{Note, MetTurn, base_of, held_of, noted, with_post, with_turn};
ghost use Rattle.cp_yard.specs.Rule.{clauses_at};
ghost use Rattle.cp_hood.specs.Hoods.{AreOccurrences, HoldsJust, IsLegalAt, listed_of};
ghost use Rattle.cp_hood.specs.Seats.{GoesOn, met_turns, noted_all};
ghost use Rattle.cp_hood.specs.Commits.{IsCommit, IsHoodAfter, IsRefusal, IsTaken};
ghost use Rattle.cp_hood.specs.Ready.{IsReadyFor};

use crate::answers::CommitAnswer;
use crate::hood::Hood;
use crate::prepared::Prepared;
use cp_book::Book;
use cp_logic::Entry;
use cp_yard::{Held, Receipt, Seat, Yard};

/// Posts the entry in this round under the seat's number, its new clauses numbered from the book's next number on, and lets the
/// hood's cells follow. It makes at most `tries` tries of the turn.
///
/// `prepared` is what the hood prepared for this entry, with no commit since. Each refusal drops it with the entry, and leaves the hood's
/// clauses and the journal as they were. Want of memory comes only of the book's growth under the turn, before anything changes.
pub fn commit(
    yard: &Yard,
    seat: &mut Seat,
    hood: &mut Hood,
    prepared: Prepared,
    entry: Entry,
    round: u32,
    tries: u32,
) -> Result<Receipt, CommitAnswer>
    requires table { seat.old.table ≡ yard.now.table }
    requires base { seat.old.view.base ≡ yard.now.base }
    requires holds { HoldsJust seat.old.view hood.old.cells }
    requires prepared { IsReadyFor (entry_of entry) prepared }
    requires room { HasRoom hood.old.cells (entry_of entry) }
    requires legal { IsLegalAt yard.now.base.rules hood.old (entry_of entry) }
    requires tries { 1 ≤ tries }
    ensures table { seat.new.table ≡ seat.old.table }
    ensures commit { (notes : List Note) × (posts : List (ℕ × Post)) × GoesOn seat.old.view seat.new.view notes posts × IsCommit seat.old.view.base seat.old.view.number round tries (entry_of entry) hood.old hood.new notes posts result }
    ensures holds { HoldsJust seat.new.view hood.new.cells }
{
    hood.is_hood();
    let mut book = match take_turn(yard, seat, tries) {
        Ok(book) => book,
        Err(met) => return Err(CommitAnswer::TurnHeld { by: met.by }),
    };
    if let Some(answer) = refusal_of(&book, &entry) {
        yard.end_turn(seat, book);
        return Err(answer);
    }
    let next = book.next();
    let prepared = prepared.numbered(next);
    let entry = entry.numbered(next);
    if book.prepare(&entry).is_err() {
        yard.end_turn(seat, book);
        return Err(CommitAnswer::NoMemory);
    }
    Ok(post_under_turn(yard, seat, hood, book, prepared, entry, round))
}

// At most so many tries of the turn: the book of the one that got it, or whom the last one met.
fn take_turn(yard: &Yard, seat: &mut Seat, tries: u32) -> Result<Book, Held>
    requires table { seat.old.table ≡ yard.now.table }
    requires turn { seat.old.view.turn ≡ None }
    requires tries { 1 ≤ tries }
    ensures table { seat.new.table ≡ seat.old.table }
    ensures base { IfOk result (λ b. base_of b ≡ seat.old.view.base) }
    ensures got { IfOk result (λ b. (met : List ℕ) × (length met < tries) × (seat.new.view ≡ with_turn b.posts (noted_all (met_turns met) seat.old.view))) }
    ensures held { IfOk result (λ b. (x : ℕ) (cs : List Named) → held_of x seat.old.view.held ≡ Some cs → cs ≡ clauses_at (base_of b) b.posts x) }
    ensures met { IfErr result (λ m. (met : List ℕ) × (length met + 1 ≡ tries) × (seat.new.view ≡ noted (MetTurn m.by) (noted_all (met_turns met) seat.old.view))) }
{
    for _made in 1..tries {
        if let Ok(book) = yard.try_turn(seat) {
            return Ok(book);
        }
    }
    yard.try_turn(seat)
}

// Why the book would not post the entry, which is legal where no clause is empty.
fn refusal_of(book: &Book, entry: &Entry) -> Option<CommitAnswer>
    ensures some { IfSome result (λ a. IsRefusal book.now (entry_of entry.now) a) }
    ensures open_still { IfNone result (IsFalse (has_empty (current book.now).clauses)) }
    ensures unspent { IfNone result (IsFalse (is_spent book.now.rules (commits book.now.posts))) }
    ensures numbers { IfNone result (IsFalse (passes_numbers (current book.now) (entry_of entry.now))) }
{
    if let Some(empty) = book.least_empty() {
        return Some(CommitAnswer::Refuted { empty });
    }
    if book.stopped().is_some() {
        let len = book.commits();
        return Some(CommitAnswer::Spent { len });
    }
    if book.passes_numbers(entry) {
        let next = book.next();
        return Some(CommitAnswer::Numbers { next });
    }
    None
}

// Posts the entry, which the book takes, and ends the turn with its post. Then the hood's cells follow.
fn post_under_turn(
    yard: &Yard,
    seat: &mut Seat,
    hood: &mut Hood,
    book: Book,
    prepared: Prepared,
    entry: Entry,
    round: u32,
) -> Receipt
    requires table { seat.old.table ≡ yard.now.table }
    requires base { base_of book ≡ seat.old.view.base }
    requires turn { seat.old.view.turn ≡ Some book.posts }
    requires held { (x : ℕ) → held_of x seat.old.view.held ≡ listed_of x hood.old.cells }
    requires clauses { AreOccurrences (current book).clauses hood.old.cells }
    requires at { IsTrue (is_at hood.old.centre (entry_of entry)) }
    requires taken { IsTaken book (entry_of entry) }
    requires ready { IsReadyFor (entry_of entry) prepared }
    requires room { HasRoom hood.old.cells (entry_of entry) }
    ensures table { seat.new.table ≡ seat.old.table }
    ensures position { result.position ≡ length book.posts }
    ensures seat { seat.new.view ≡ with_post (length book.posts) (record { worker = seat.old.view.number; round = round; entry = entry_of entry }) seat.old.view }
    ensures hood { IsHoodAfter (entry_of entry) hood.old hood.new }
{
    let mut book = book;
    book.is_legal();
    hood.is_hood();
    if book.post(seat.number(), round, entry).is_err() {
        unreachable!()
    }
    let receipt = yard.end_turn_with(seat, book);
    hood.follow(prepared);
    receipt
}
