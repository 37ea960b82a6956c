//! The sweep: every variable is searched until nothing applies.
//!
//! A mark goes round the variables from 1 up and begins again after the last. Where the search gives an entry, the book takes it
//! and the cells follow, and the mark stays for a next search; where it gives nothing, the mark goes on. What applies at a variable
//! is decided by its clauses, so the mark passes over each variable whose clauses stand as the last search there left them, also if that
//! was before the sweep, as the cell then tells; and the sweep ends once that is so of all. A round takes the time of its searches: to
//! search each variable again until a whole round gives nothing would take that of all clauses for each few entries. While the mark
//! stays, each search goes on after what the last one found there.

ghost use Rattle.std.specs.Prelude.{◌≡◌, ◌≤◌, ◌<◌, ◌+◌, ◌&&◌, ℕ, List, true, nat_lt, IfOk, OnOk, IsFalse, IsTrue, Some, None, length};
ghost use Rattle.std.specs.Option.{option_map};
ghost use Rattle.cp_logic.specs.declared.named.Named.{Named};
ghost use Rattle.cp_logic.specs.Formulas.{IsFormula, has_empty, occurrences};
ghost use Rattle.cp_logic.specs.Entries.{is_look, numbered};
ghost use Rattle.cp_logic.specs.Journals.{IsLegalJournal, folded, number_limit};
ghost use Rattle.cp_logic.specs.Legality.{first, is_legal_in};
ghost use Rattle.cp_logic.specs.Pairs.{pairs_of};
ghost use Rattle.cp_logic.specs.Views.{entry_of};
ghost use Rattle.cp_book.specs.Answers.{answer_to, Posted};
ghost use Rattle.cp_book.specs.Views.{current, current_pairs, stop_in, with_post};
ghost use Rattle.cp_find.specs.Past.{IsPast};
ghost use Rattle.cp_sweep.specs.Marks.{is_marked, IsFirstAround};
ghost use Rattle.cp_sweep.specs.Cursor.{next_turn, left_at, turn_for};
ghost use Rattle.cp_sweep.specs.Swept.{IsSwept, IsSweptAfter, IsUnspent};
ghost use Rattle.cp_occ.specs.Changes.{AreCellsOf};
ghost use Rattle.cp_sweep.specs.Sweeping.{IsReady, cursor_of, IsSilentAt, AreTouched};

use crate::marks::Marks;
use crate::touch::touch;
use cp_book::Book;
use cp_eliminate::search;
use cp_find::Reached;
use cp_logic::{Entry, Formula, Journal, Rules, Stack, Stop};
use cp_occ::Cells;
use cp_yard::Ground;
use std::alloc::{AllocError, Global};
use std::mem;

/// What a sweep leaves: the formula, the journal of what was done to it, the pairs that complete its models, and why it stopped, if
/// something was left to do.
#[derive(Drop)]
pub struct Swept {
    /// What is left.
    pub formula: Formula,
    /// What was done, in order; the sweep's own posts are of worker 0 in round 0.
    pub journal: Journal,
    /// The pairs that complete a model of what is left, the first made first, over the variables of the formula.
    pub stack: Stack,
    /// None where nothing applies any more.
    pub stopped: Option<Stop>,
}

// Where a sweep stands. The mark is the variable of the last search, with what the searches there have passed, and each variable at
// which something may be applicable is touched.
#[derive(Drop)]
struct Sweeping {
    book: Book,
    cells: Cells,
    mark: u32,
    reached: Reached,
    touched: Marks,
}

/// Simplifies the formula until no entry of the techniques that the rules choose applies, or the run has to stop: it is refuted,
/// the budget of commits is spent, or clause numbers end. It is refused only for want of memory, and what was made is dropped.
pub fn simplify(alloc: Global, formula: Formula, rules: &Rules) -> Result<Swept, AllocError>
    requires numbers { formula.formula.next ≤ number_limit }
    ensures swept { IfOk result (λ s. IsSwept formula.formula rules.now s.journal.items s.formula.formula s.stopped) }
    ensures pairs { IfOk result (λ s. pairs_of s.stack.pairs ≡ (folded formula.formula s.journal.items).pairs) }
    ensures variables { IfOk result (λ s. s.stack.vars ≡ formula.formula.variables) }
    ensures unspent { IfOk result (λ s. IsUnspent formula.formula rules.now s.stopped) }
{
    let cells = Cells::of_formula(alloc, &formula)?;
    let book = Book::new(alloc, formula, *rules)?;
    sweep(alloc, Ground { book, cells })
}

/// Goes on from the posts of the ground's book until no entry of the techniques that its rules choose applies to what they leave, or
/// the run has to stop, as `simplify` does. The cells are those of the book's current clauses.
pub fn sweep(alloc: Global, ground: Ground) -> Result<Swept, AllocError>
    requires cells { AreCellsOf (current ground.book) ground.cells.items }
    requires numbers { ground.book.first.next ≤ number_limit }
    ensures swept { IfOk result (λ s. IsSweptAfter ground.book.first ground.book.rules ground.book.posts s.journal.items s.formula.formula s.stopped) }
    ensures pairs { IfOk result (λ s. pairs_of s.stack.pairs ≡ (folded ground.book.first s.journal.items).pairs) }
    ensures variables { IfOk result (λ s. s.stack.vars ≡ ground.book.first.variables) }
    ensures unspent { IfOk result (λ s. IsUnspent ground.book.first ground.book.rules s.stopped) }
{
    let Ground { book, cells } = ground;
    book.is_legal();
    let touched = first_touched(alloc, book.clauses().vars(), &cells, book.rules())?;
    let mut state = Sweeping {
        book,
        cells,
        mark: 1,
        reached: Reached::start(alloc),
        touched,
    };
    'searches: while let Some(var) = next_touched(&state) {
        move_to(&mut state.reached, state.mark, var);
        state.mark = var;
        if let Some(stop) = turn(alloc, &mut state)? {
            return Ok(closed(state.book, Some(stop)));
        }
    }
    let stopped = state.book.stopped();
    Ok(closed(state.book, stopped))
}

// The variables from 1 to `vars` but those whose cells are known to be silent.
fn first_touched(
    alloc: Global,
    vars: u32,
    cells: &Cells,
    rules: &Rules,
) -> Result<Marks, AllocError>
    requires { vars ≤ 2000000 }
    ensures { IfOk result (λ m. AreTouched cells.now.items rules.now vars vars m) }
{
    let mut touched = Marks::new(alloc, vars)?;
    for index in 0..vars {
        if !is_silent_at(cells, index as usize, rules) {
            touched.insert(index as usize + 1);
        }
    }
    Ok(touched)
}

// Whether the cell at the index is known to be silent.
fn is_silent_at(cells: &Cells, index: usize, rules: &Rules) -> bool
    ensures { IsTrue result → IsSilentAt cells.now.items rules.now index }
{
    match cells.get(index) {
        Some(cell) => cell.is_silent(rules),
        None => false,
    }
}

// The first touched variable from the mark on, where 1 comes after the last.
fn next_touched(state: &Sweeping) -> Option<u32>
    requires { (x : ℕ) → is_marked state.now.touched x ≡ true → x ≤ 2000000 }
    ensures { IsFirstAround (is_marked state.now.touched) state.now.mark result }
{
    let var = state.touched.first_around(state.mark as usize)?;
    Some(var as u32)
}

// What the searches have passed once the mark moves to the variable: where it is another one, nothing.
fn move_to(reached: &mut Reached, mark: u32, var: u32)
    ensures { (cs : List Named) → IsPast mark (occurrences cs mark) reached.old → IsPast var (occurrences cs var) reached.new }
{
    if var == mark {
        return;
    }
    reached.restart();
}

// What the book leaves.
fn closed(book: Book, stopped: Option<Stop>) -> Swept
    ensures formula { result.formula.formula ≡ current book }
    ensures journal { result.journal.items ≡ book.posts }
    ensures pairs { pairs_of result.stack.pairs ≡ current_pairs book }
    ensures variables { result.stack.vars ≡ book.first.variables }
    ensures stopped { result.stopped ≡ stopped }
{
    let (formula, journal, stack) = book.close();
    Swept {
        formula,
        journal,
        stack,
        stopped,
    }
}

// One turn: the stop, if there is one, or the search at the mark and the post of what it gives.
fn turn(alloc: Global, state: &mut Sweeping) -> Result<Option<Stop>, AllocError>
    requires ready { IsReady state.old }
    requires past { IsPast state.old.mark (occurrences (current state.old.book).clauses state.old.mark) state.old.reached }
    ensures turn { IfOk result (λ stop. record { stop = stop; cursor = cursor_of state.new } ≡ next_turn state.old.book.first state.old.book.rules (cursor_of state.old)) }
    ensures first { OnOk result (state.new.book.first ≡ state.old.book.first) }
    ensures rules { OnOk result (state.new.book.rules ≡ state.old.book.rules) }
    ensures legal { OnOk result (IsLegalJournal state.new.book.first state.new.book.rules state.new.book.posts) }
    ensures cells { OnOk result (AreCellsOf (left_at state.new.book.first (cursor_of state.new)) state.new.cells.items) }
    ensures past { OnOk result (IsPast state.new.mark (occurrences (current state.new.book).clauses state.new.mark) state.new.reached) }
{
    state.book.is_legal();
    if let Some(stop) = state.book.stopped() {
        return Ok(Some(stop));
    }
    let mut reached = mem::replace(&mut state.reached, Reached::start(alloc));
    let found = search_at(alloc, state, &mut reached)?;
    state.reached = reached;
    match found {
        None => {
            state.touched.remove(state.mark as usize);
            settle_at(&mut state.cells, &state.book, state.mark);
            Ok(None)
        }
        Some(entry) => post_found(alloc, state, entry),
    }
}

// The first entry at the mark, behind what the searches there have passed.
fn search_at(
    alloc: Global,
    state: &Sweeping,
    reached: &mut Reached,
) -> Result<Option<Entry>, AllocError>
    requires cells { AreCellsOf (current state.now.book) state.now.cells.items }
    requires filled { IsFalse (has_empty (current state.now.book).clauses) }
    requires numbers { (current state.now.book).next ≤ number_limit }
    requires low { 1 ≤ state.now.mark }
    requires high { state.now.mark ≤ (current state.now.book).variables }
    requires past { IsPast state.now.mark (occurrences (current state.now.book).clauses state.now.mark) reached.old }
    ensures found { IfOk result (λ found. option_map entry_of found ≡ first (current state.now.book) state.now.book.rules state.now.mark) }
    ensures past { IsPast state.now.mark (occurrences (current state.now.book).clauses state.now.mark) reached.new }
{
    let Some(cell) = state.cells.get(state.mark as usize - 1) else {
        unreachable!()
    };
    search(alloc, cell, state.book.rules(), state.book.next(), reached)
}

// The variable's cell keeps that a search of it gives nothing.
fn settle_at(cells: &mut Cells, book: &Book, var: u32)
    requires cells { AreCellsOf (current book.now) cells.old.items }
    requires filled { IsFalse (has_empty (current book.now).clauses) }
    requires low { 1 ≤ var }
    requires high { var ≤ (current book.now).variables }
    requires none { first (current book.now) book.now.rules var ≡ None }
    ensures { cells.new ≡ cells.old }
{
    cells.settle(var as usize - 1, book.rules());
}

// Lets the cells follow the entry that the search at the mark gave, and posts it, unless its new clause has no number. All
// memory is taken before anything changes, and a legal entry whose numbers fit is posted.
fn post_found(alloc: Global, state: &mut Sweeping, entry: Entry) -> Result<Option<Stop>, AllocError>
    requires cells { AreCellsOf (current state.old.book) state.old.cells.items }
    requires goes_on { stop_in state.old.book ≡ None }
    requires found { first (current state.old.book) state.old.book.rules state.old.mark ≡ Some (entry_of entry) }
    requires valid { IsFormula (current state.old.book) }
    requires room { (current state.old.book).variables < length state.old.touched }
    requires past { IsPast state.old.mark (occurrences (current state.old.book).clauses state.old.mark) state.old.reached }
    ensures turn { IfOk result (λ stop. record { stop = stop; cursor = cursor_of state.new } ≡ turn_for (current state.old.book) (cursor_of state.old) (Some (entry_of entry))) }
    ensures first { OnOk result (state.new.book.first ≡ state.old.book.first) }
    ensures rules { OnOk result (state.new.book.rules ≡ state.old.book.rules) }
    ensures legal { OnOk result (IsLegalJournal state.new.book.first state.new.book.rules state.new.book.posts) }
    ensures cells { OnOk result (AreCellsOf (current state.new.book) state.new.cells.items) }
    ensures past { OnOk result (IsPast state.new.mark (occurrences (current state.new.book).clauses state.new.mark) state.new.reached) }
{
    if state.book.passes_numbers(&entry) {
        state.book.is_legal();
        return Ok(Some(Stop::Numbers));
    }
    state.book.prepare(&entry)?;
    let prepared = state.cells.prepare(alloc, &entry)?;
    state.cells.apply(&entry, prepared);
    touch(&mut state.touched, &entry);
    state.reached.follow(&entry, state.mark);
    append(&mut state.book, entry);
    state.book.is_legal();
    Ok(None)
}

// Posts an entry that is legal and that the book takes, as worker 0 in round 0.
fn append(book: &mut Book, entry: Entry)
    requires commit { IsFalse (is_look (entry_of entry)) }
    requires prepared { book.old.prepared ≡ Some (entry_of entry) }
    requires legal { IsTrue (is_legal_in (current book.old).clauses book.old.rules (numbered (current book.old).next (entry_of entry))) }
    requires taken { answer_to book.old (entry_of entry) ≡ Posted (length book.old.posts) }
    ensures { book.new ≡ with_post book.old 0 0 (entry_of entry) }
{
    if book.post(0, 0, entry).is_err() {
        unreachable!()
    }
}
