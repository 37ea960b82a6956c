//! The book: a first formula, the rules of a run, and the posts that were made.
//!
//! A post takes two steps. `prepare` takes all memory that the post needs, and `post` then takes none, so that memory is out only
//! before anything changes. That the entry is legal is a condition of the post, which the search's contract meets.
//! The first formula is kept only for contracts.
ghost use Rattle.std.specs.Prelude.{◌≡◌, ◌≤◌, [], ℕ, IsTrue, IsFalse, OnOk, OnErr, IfOk, IfErr, Some, None, Err, length};
ghost use Rattle.cp_logic.specs.Formulas.{IsFormula};
ghost use Rattle.cp_logic.specs.Legality.{is_legal_in};
ghost use Rattle.cp_logic.specs.Entries.{numbered, is_look};
ghost use Rattle.cp_logic.specs.Journals.{IsLegalJournal, commits};
ghost use Rattle.cp_logic.specs.Pairs.{pairs_of};
ghost use Rattle.cp_logic.specs.Sweeps.{is_spent};
ghost use Rattle.cp_logic.specs.Views.{entry_of};
ghost use Rattle.cp_book.specs.Empties.{empty_numbers, least_empty};
ghost use Rattle.cp_book.specs.Views.{current, current_pairs, with_post, stop_in};
ghost use Rattle.cp_book.specs.Answers.{answer_to, given_answer, passes_numbers};

use crate::answers::PostAnswer;
use crate::changes::{apply, empties_of, push_empties, seconds_of_added, weakened_count};
use crate::numbers::Numbers;
use cp_logic::{Clause, Entry, Formula, Journal, Post, Rules, Stack, Stop};
use std::alloc::{AllocError, Global};
use std::marker::Model;
use std::mem;
use std::snapshot::Snapshot;

// The largest number that the next clause may have: no clause has it, or one above it.
const NUMBER_LIMIT: u64 = 1 << 40;

/// A first formula, the rules of a run, and a journal that is legal from that formula.
///
/// Contracts see besides the entry for which the book is prepared, if any. What it keeps stands behind one pointer: a book goes from hand
/// to hand with each turn, through the same slots as the cells of variables, and these would all be as wide as a book.
#[derive(Drop)]
pub struct Book {
    parts: Box<Parts>,
}

#[derive(Drop)]
struct Parts {
    alloc: Global,
    first: Snapshot<Formula>,
    rules: Rules,
    formula: Formula,
    journal: Journal,
    stack: Stack,
    commits: u64,
    // The numbers of the empty clauses. Nothing is posted once there is one, so only one post adds to them.
    empties: Numbers,
    prepared: Option<Snapshot<Entry>>,
    // A second clause of each that the prepared entry adds.
    seconds: Vec<Clause>,
}

impl Model for Book {
    ghost use Rattle.cp_book.specs.Views.{BookView};

    ghost Value = { BookView };

    ghost use Rattle.cp_book.specs.Parts.{view_of, HasLedger, HasRoom};

    ghost view = { λ b. view_of b.parts.value };

    ghost invariant = { λ b. HasLedger b.parts.value × HasRoom b.parts.value };
}

impl Book {
    /// A book with no posts over this formula, whose clauses are the current ones. The error comes only if memory is out.
    pub fn new(alloc: Global, formula: Formula, rules: Rules) -> Result<Book, AllocError>
        ensures { IfOk result (λ b. b ≡ record { first = formula.formula; rules = rules; posts = []; prepared = None }) }
    {
        let vars = formula.vars();
        let empties = empties_of(alloc, &formula)?;
        let parts = Parts {
            alloc,
            first: Snapshot::of(&formula),
            rules,
            formula,
            empties,
            journal: Journal::new(alloc),
            stack: Stack::new(alloc, vars),
            commits: 0,
            prepared: None,
            seconds: Vec::new(alloc),
        };
        Ok(Book {
            parts: Box::new(alloc, parts)?,
        })
    }

    /// Makes room for one post of the entry, and a second clause of each new one, since the journal keeps the entry's own. On a
    /// refusal the book is prepared for none.
    pub fn prepare(&mut self, entry: &Entry) -> Result<(), AllocError>
        requires { IsFalse (is_look (entry_of entry.now)) }
        ensures same { self.new ≡ record self.old { prepared = self.new.prepared } }
        ensures ok { OnOk result (self.new.prepared ≡ Some (entry_of entry.now)) }
        ensures err { OnErr result (self.new.prepared ≡ None) }
    {
        self.parts.prepared = None;
        self.parts.journal.reserve(1)?;
        self.parts.formula.reserve(entry.new_count() as usize)?;
        self.parts.empties.reserve(entry.new_count() as usize)?;
        let pairs = weakened_count(entry).ok_or(AllocError)?;
        self.parts.stack.reserve(pairs)?;
        self.parts.seconds = seconds_of_added(self.parts.alloc, entry)?;
        self.parts.prepared = Some(Snapshot::of(entry));
        Ok(())
    }

    /// Posts an entry that is legal if no clause is empty, its new clauses numbered from the book's next number on, and answers the
    /// position of the post. It takes no memory, and the time of the entry's own clauses.
    ///
    /// Each refusal hands the entry back and leaves the book as it was. They come in this order: `Refuted` if a current clause is
    /// empty, `Spent` if the commits number the budget, `Numbers` if a new clause would pass the last clause number.
    pub fn post(&mut self, worker: u32, round: u32, entry: Entry) -> Result<u64, PostAnswer>
        requires commit { IsFalse (is_look (entry_of entry)) }
        requires prepared { self.old.prepared ≡ Some (entry_of entry) }
        requires legal { IsTrue (is_legal_in (current self.old).clauses self.old.rules (numbered (current self.old).next (entry_of entry))) }
        ensures answer { given_answer result ≡ answer_to self.old (entry_of entry) }
        ensures ok { OnOk result (self.new ≡ with_post self.old worker round (entry_of entry)) }
        ensures err { OnErr result (self.new ≡ self.old) }
    {
        let entry = self.unless_stopped(entry)?;
        Ok(self.append(worker, round, entry))
    }

    /// The number of variables, which no post changes. There are at most 2,000,000.
    pub fn vars(&self) -> u32
        ensures value { result ≡ (current self.now).variables }
        ensures most { result ≤ 2000000 }
    {
        self.parts.formula.vars()
    }

    /// The number of the next new clause.
    pub fn next(&self) -> u64
        ensures { result ≡ (current self.now).next }
    {
        self.parts.formula.next()
    }

    /// The number of posts that aren't Look.
    pub fn commits(&self) -> u64
        ensures { result ≡ commits self.now.posts }
    {
        self.parts.commits
    }

    /// The posts.
    pub fn journal(&self) -> &Journal
        ensures { result.now.items ≡ self.now.posts }
    {
        &self.parts.journal
    }

    /// The pairs that the posts lead to, over the variables of the first formula.
    pub fn stack(&self) -> &Stack
        ensures pairs { pairs_of result.now.pairs ≡ current_pairs self.now }
        ensures variables { result.now.vars ≡ self.now.first.variables }
    {
        &self.parts.stack
    }

    /// The rules of the run.
    pub fn rules(&self) -> &Rules
        ensures { result.now ≡ self.now.rules }
    {
        &self.parts.rules
    }

    /// The current clauses: those that the posts leave of the first formula, and those that they added.
    pub fn clauses(&self) -> &Formula
        ensures { result.now.formula ≡ current self.now }
    {
        &self.parts.formula
    }

    /// Why no more is posted, whatever the entry: `Refuted` where a current clause is empty, else `Spent` where the commits
    /// number the budget.
    pub fn stopped(&self) -> Option<Stop>
        ensures { result ≡ stop_in self.now }
    {
        if self.least_empty().is_some() {
            Some(Stop::Refuted)
        } else if self.is_spent() {
            Some(Stop::Spent)
        } else {
            None
        }
    }

    /// The journal is legal from the first formula, and what it leads to is a formula.
    pub fn is_legal(&self)
        ensures first { IsFormula self.now.first }
        ensures now { IsFormula (current self.now) }
        ensures journal { IsLegalJournal self.now.first self.now.rules self.now.posts }
    {
        // That what the posts lead to is a formula is a clause of this call.
        let _ = self.parts.formula.vars();
    }

    /// The current clauses, the journal and the stack, with no copy made.
    pub fn close(self) -> (Formula, Journal, Stack)
        ensures clauses { result.0.formula ≡ current self }
        ensures posts { result.1.items ≡ self.posts }
        ensures pairs { pairs_of result.2.pairs ≡ current_pairs self }
        ensures variables { result.2.vars ≡ self.first.variables }
    {
        let parts = Box::into_inner(self.parts);
        (parts.formula, parts.journal, parts.stack)
    }

    /// The least number of an empty clause among the current ones, or `None` where no clause is empty.
    pub fn least_empty(&self) -> Option<u64>
        ensures { result ≡ least_empty (current self.now).clauses }
    {
        self.parts.empties.first()
    }

    /// The numbers of the empty clauses among the current ones, ascending.
    pub fn empties(&self) -> &Numbers
        ensures { result.now.items ≡ empty_numbers (current self.now).clauses }
    {
        &self.parts.empties
    }

    // Whether the commits number the budget.
    fn is_spent(&self) -> bool
        ensures { result ≡ is_spent self.now.rules (commits self.now.posts) }
    {
        self.parts.rules.budget != 0 && self.parts.commits == self.parts.rules.budget
    }

    /// Whether the entry's new clauses would pass the last clause number, so that `post` refuses it by `Numbers` where the book
    /// isn't stopped.
    pub fn passes_numbers(&self, entry: &Entry) -> bool
        ensures { result ≡ passes_numbers (current self.now) (entry_of entry.now) }
    {
        self.parts.formula.next().saturating_add(entry.new_count()) > NUMBER_LIMIT
    }

    // Hands the entry on, unless the book is stopped for any entry or for this one's numbers.
    fn unless_stopped(&self, entry: Entry) -> Result<Entry, PostAnswer>
        ensures same { IfOk result (λ e. e ≡ entry) }
        ensures open_still { OnOk result (least_empty (current self.now).clauses ≡ None) }
        ensures unspent { OnOk result (IsFalse (is_spent self.now.rules (commits self.now.posts))) }
        ensures numbers { OnOk result (IsFalse (passes_numbers (current self.now) (entry_of entry))) }
        ensures err { IfErr result (λ a. given_answer (Err a) ≡ answer_to self.now (entry_of entry)) }
    {
        if let Some(empty) = self.least_empty() {
            return Err(PostAnswer::Refuted { empty, entry });
        }
        if self.is_spent() {
            let len = self.commits();
            return Err(PostAnswer::Spent { len, entry });
        }
        if self.passes_numbers(&entry) {
            let next = self.next();
            return Err(PostAnswer::Numbers { next, entry });
        }
        Ok(entry)
    }

    // Appends the post of an entry that is legal, and changes the clauses and the stack.
    fn append(&mut self, worker: u32, round: u32, entry: Entry) -> u64
        requires commit { IsFalse (is_look (entry_of entry)) }
        requires prepared { self.old.prepared ≡ Some (entry_of entry) }
        requires open_still { least_empty (current self.old).clauses ≡ None }
        requires unspent { IsFalse (is_spent self.old.rules (commits self.old.posts)) }
        requires numbers { IsFalse (passes_numbers (current self.old) (entry_of entry)) }
        requires legal { IsTrue (is_legal_in (current self.old).clauses self.old.rules (numbered (current self.old).next (entry_of entry))) }
        ensures book { self.new ≡ with_post self.old worker round (entry_of entry) }
        ensures position { result ≡ length self.old.posts }
    {
        let parts: &mut Parts = &mut self.parts;
        let entry = entry.numbered(parts.formula.next());
        push_empties(&mut parts.empties, &entry);
        let seconds = mem::replace(&mut parts.seconds, Vec::new(parts.alloc));
        apply(&mut parts.formula, &mut parts.stack, &entry, seconds);
        parts.prepared = None;
        let position = parts.journal.push_reserved(Post {
            worker,
            round,
            entry,
        });
        let _len = parts.journal.len();
        parts.commits += 1;
        position
    }
}
