//! A cell's clauses by their literals, to be asked for those that have given literals.
//!
//! SatELite and CaDiCaL look for the clauses that a clause subsumes through the occurrences of its literal that occurs least, and so
//! does this, within one cell: the variable of the cell is in all of its clauses, but most of its other literals are in few. There
//! are no tables as long as the formula's list of literals, since cells are searched one at a time and most are short. So literals
//! share buckets, and a clause stands in the bucket of each of its literals but those of the cell's variable, by its number and its
//! signature. Cells of few clauses have no buckets: there all pairs are told by what the cell keeps of the clauses.
//!
//! A lookup outlives the entries at its variable: a bucket may have clauses that are gone, and a clause that it names is read in the
//! cell. The memory of the buckets is kept for the lookups to come.
ghost use Rattle.std.specs.Prelude.{◌≡◌, ◌≢◌, ◌<◌, ◌≤◌, ◌++◌, ◌∷◌, [], ◌⊎◌, length, slice_index_or, OnOk, IfSome, IfNone, Some, IsTrue, IsFalse, ℕ, List};
ghost use Rattle.std.specs.List.{find, Contains};
ghost use Rattle.std.specs.Option.{option_map};
ghost use Rattle.cp_logic.specs.declared.named.Named.{Named};
ghost use Rattle.cp_logic.specs.Literals.{variable_of};
ghost use Rattle.cp_occ.specs.Cells.{from_number};
ghost use Rattle.cp_find.specs.declared.lookup.Signed.{Signed};
ghost use Rattle.cp_find.specs.Finds.{subsumes};
ghost use Rattle.cp_find.specs.Lookups.{AreListed, Keeps, Covers, signed, place, Serves, IsMet, IsBest, is_up_to};

use crate::wanted::Wanted;
use cp_logic::Lit;
use cp_occ::{Cell, Occurrence};
use std::alloc::{AllocError, Global};
use std::marker::Model;

// So many entries stand in a bucket on average. With fewer the buckets take more memory, and filling them costs more than it saves.
const PER_BUCKET: usize = 4;

// Of so few clauses all pairs are told, which costs less than to fill buckets and to choose among them.
const FEW: usize = 16;

// The same is so where there are at most so many times as many clauses as literals in one of them.
const MOST_TIMES: usize = 8;

// But where the clauses are longer than this on average, most bits of their signatures are set, which then exclude little.
const SHORT: usize = 16;

// So few candidates are compared in the time that it takes to look for a shorter bucket.
const ENOUGH: usize = 4;

/// Buckets of a cell's clauses, of which the first `count` are in use. With none the cell itself is looked through. It is ready once it is
/// known whether the cell needs buckets, and they are filled.
#[derive(Drop)]
pub struct Lookup {
    is_ready: bool,
    count: u32,
    buckets: Vec<Bucket>,
}

impl Model for Lookup {
    ghost use Rattle.std.specs.Prelude.{◌≤◌, length};
    ghost use Rattle.cp_find.specs.Lookups.{LookupView};

    ghost Value = { LookupView };

    ghost view = { λ l. record { count = l.count; buckets = l.buckets.items } };

    ghost invariant = { λ l. l.count ≤ length l.buckets.items };
}

impl Lookup {
    /// No lookup. It takes no memory.
    pub(crate) fn none(alloc: Global) -> Lookup
        ensures { (x : ℕ) (cs : List Named) → Covers x cs result }
    {
        Lookup {
            is_ready: false,
            count: 0,
            buckets: Vec::new(alloc),
        }
    }

    /// No lookup any more. The memory is kept.
    pub(crate) fn forget(&mut self)
        ensures { (x : ℕ) (cs : List Named) → Covers x cs self.new }
    {
        self.is_ready = false;
        self.count = 0;
    }

    /// Looks the cell's clauses up, unless that is done or they are few. The error comes only for want of memory.
    pub(crate) fn make_ready(&mut self, alloc: Global, cell: &Cell) -> Result<(), AllocError>
        requires { Covers cell.now.variable cell.now.clauses self.old }
        ensures { Covers cell.now.variable cell.now.clauses self.new }
    {
        if self.is_ready || cell.len() <= FEW {
            return Ok(());
        }
        self.fill(alloc, cell)
    }

    fn fill(&mut self, alloc: Global, cell: &Cell) -> Result<(), AllocError>
        ensures { Covers cell.now.variable cell.now.clauses self.new }
    {
        self.is_ready = true;
        self.count = 0;
        let count = bucket_count(cell);
        if count == 0 {
            return Ok(());
        }
        fill_buckets(alloc, &mut self.buckets, count, cell)?;
        self.count = count;
        Ok(())
    }

    /// The first clause of the cell from the number on that is wanted.
    pub(crate) fn first<'a>(
        &self,
        cell: &'a Cell,
        from: u64,
        wanted: &Wanted<'_>,
    ) -> Option<&'a Occurrence>
        requires covers { Covers cell.now.variable cell.now.clauses self.now }
        requires variable { wanted.now.variable ≡ cell.now.variable }
        ensures { option_map (λ o. o.now) result ≡ find (subsumes wanted.now.sought) (from_number from cell.now.clauses) }
    {
        // It says of the cell that the numbers rise.
        let _ = cell.var();
        match self.candidates(wanted) {
            Some(candidates) => best_of(cell, candidates, from, wanted),
            None => wanted.first_of(cell.occurrences_from(from)),
        }
    }

    // The shortest bucket of the literals, or `None` where the cell does as well: with no bucket, or for literals of its variable alone.
    fn candidates(&self, wanted: &Wanted<'_>) -> Option<&[Signed]>
        ensures { IfSome result (λ list. Serves wanted.now self.now list.now) }
    {
        if self.count == 0 {
            return None;
        }
        let mut shortest = None;
        for lit in wanted.lits() {
            if lit.var() == wanted.var() {
                continue;
            }
            let bucket = self.bucket(*lit);
            if bucket.len() <= ENOUGH {
                return Some(bucket);
            }
            shortest = Some(shorter(shortest, bucket));
        }
        shortest
    }

    // The clauses that share the literal's bucket.
    fn bucket(&self, lit: Lit) -> &[Signed]
        requires { 0 < self.now.count }
        ensures { (x : ℕ) (cs : List Named) (c : Named) → Covers x cs self.now → Contains cs c → Contains c.clause lit → variable_of lit ≢ x → Contains result.now (signed c) }
    {
        self.buckets[place(lit, self.count)].as_slice()
    }
}

// The shorter one of the two lists.
fn shorter<'a>(first: Option<&'a [Signed]>, second: &'a [Signed]) -> &'a [Signed]
    ensures { (first.entry ≡ Some result) ⊎ (result.now ≡ second.now) }
{
    match first {
        Some(list) if list.len() <= second.len() => list,
        _ => second,
    }
}

/// The number and the signature of a clause.
#[derive(Clone, Copy)]
pub(crate) struct Signed {
    number: u64,
    bits: u64,
}

impl Signed {
    fn of(clause: &Occurrence) -> Signed
        ensures { result ≡ signed clause.now }
    {
        Signed {
            number: clause.number(),
            bits: clause.signature(),
        }
    }
}

/// Clauses that have literals of the same place, seen as the list of their numbers and signatures.
#[derive(Drop)]
pub(crate) struct Bucket {
    clauses: Vec<Signed>,
}

impl Model for Bucket {
    ghost use Rattle.std.specs.Prelude.{List};
    ghost use Rattle.cp_find.specs.declared.lookup.Signed.{Signed};

    ghost Value = { List Signed };

    ghost view = { λ b. b.clauses.items };
}

impl Bucket {
    // No clause. It takes no memory.
    fn new(alloc: Global) -> Bucket
        ensures { result ≡ [] }
    {
        Bucket {
            clauses: Vec::new(alloc),
        }
    }

    fn as_slice(&self) -> &[Signed]
        ensures { result.now ≡ self.now }
    {
        self.clauses.as_slice()
    }

    fn clear(&mut self)
        ensures { self.new ≡ [] }
    {
        self.clauses.clear();
    }

    // Adds the clause, unless it was added last: a clause may have several literals of the bucket.
    fn put(&mut self, clause: Signed) -> Result<(), AllocError>
        ensures kept { OnOk result ((other : Signed) → Contains self.old other → Contains self.new other) }
        ensures has { OnOk result (Contains self.new clause) }
    {
        if is_last(self.clauses.as_slice(), clause) {
            return Ok(());
        }
        self.clauses.push(clause)?;
        Ok(())
    }
}

// The bucket of the literal, of so many: they share the numbers below 2 ^ 32 evenly. The code is multiplied first, since the variables of
// an encoded problem often stand at equal distances.
fn place(lit: Lit, count: u32) -> usize
    requires { 0 < count }
    ensures value { result ≡ place lit count }
    ensures within { result < count }
{
    let spread = u64::from(lit.code()) * 2_654_435_769 % 4_294_967_296;
    (u64::from(count) * spread / 4_294_967_296) as usize
}

// How many buckets to fill for the cell's clauses, if any.
fn bucket_count(cell: &Cell) -> u32 {
    let clauses = cell.len();
    if clauses <= FEW {
        return 0;
    }
    let literals = literal_count(cell);
    if literals / clauses <= SHORT && clauses / MOST_TIMES <= literals / clauses {
        return 0;
    }
    u32::try_from(literals / PER_BUCKET).unwrap_or(u32::MAX)
}

// How many literals the clauses have together.
fn literal_count(cell: &Cell) -> usize {
    let mut count = 0_usize;
    for (_, clause) in cell.iter() {
        count = count.saturating_add(clause.lits().len());
    }
    count
}

// Enters the cell's clauses into the first so many buckets, and into no others.
fn fill_buckets(
    alloc: Global,
    buckets: &mut Vec<Bucket>,
    count: u32,
    cell: &Cell,
) -> Result<(), AllocError>
    requires { 0 < count }
    ensures len { OnOk result (count ≤ length buckets.new.items) }
    ensures covers { OnOk result (Covers cell.now.variable cell.now.clauses (record { count = count; buckets = buckets.new.items })) }
{
    let var = cell.var();
    clear_first(buckets.as_mut_slice(), count as usize);
    add_buckets(alloc, buckets, count as usize)?;
    for clause in cell.occurrences() {
        enter(buckets, count, var, clause)?;
    }
    Ok(())
}

// Empties the first so many buckets.
fn clear_first(buckets: &mut [Bucket], count: usize) {
    for bucket in buckets.iter_mut().take(count) {
        bucket.clear();
    }
}

// Adds empty buckets until there are so many.
fn add_buckets(alloc: Global, buckets: &mut Vec<Bucket>, count: usize) -> Result<(), AllocError>
    ensures { OnOk result (count ≤ length buckets.new.items) }
{
    for _k in buckets.len()..count {
        buckets.push(Bucket::new(alloc))?;
    }
    Ok(())
}

// Enters the clause into the bucket of each of its literals of other variables, of the first so many buckets.
fn enter(
    buckets: &mut Vec<Bucket>,
    count: u32,
    var: u32,
    clause: &Occurrence,
) -> Result<(), AllocError>
    requires some { 0 < count }
    requires within { count ≤ length buckets.old.items }
    ensures len { OnOk result (length buckets.new.items ≡ length buckets.old.items) }
    ensures kept { OnOk result (Keeps buckets.old.items buckets.new.items) }
    ensures entered { OnOk result (AreListed var count buckets.new.items clause.now.clause (signed clause.now)) }
{
    let entry = Signed::of(clause);
    for lit in clause.clause().lits() {
        enter_at(buckets, count, var, *lit, entry)?;
    }
    Ok(())
}

// Enters the clause into the bucket of the literal, unless that is of the variable.
fn enter_at(
    buckets: &mut Vec<Bucket>,
    count: u32,
    var: u32,
    lit: Lit,
    entry: Signed,
) -> Result<(), AllocError>
    requires some { 0 < count }
    requires within { count ≤ length buckets.old.items }
    ensures len { OnOk result (length buckets.new.items ≡ length buckets.old.items) }
    ensures kept { OnOk result (Keeps buckets.old.items buckets.new.items) }
    ensures entered { OnOk result (variable_of lit ≢ var → (d : List Signed) → Contains (slice_index_or buckets.new.items (place lit count) d) entry) }
{
    if lit.var() == var {
        return Ok(());
    }
    buckets[place(lit, count)].put(entry)?;
    Ok(())
}

// Whether the last of the clauses is this one.
fn is_last(clauses: &[Signed], clause: Signed) -> bool
    ensures { IsTrue result → Contains clauses.now clause }
{
    let Some(last) = clauses.last() else {
        return false;
    };
    last.number == clause.number && last.bits == clause.bits
}

// The first clause of the cell from the number on that is wanted, of those that are candidates.
fn best_of<'a>(
    cell: &'a Cell,
    candidates: &[Signed],
    from: u64,
    wanted: &Wanted<'_>,
) -> Option<&'a Occurrence>
    ensures { IsBest wanted.now.sought cell.now.clauses from candidates.now (option_map (λ o. o.now) result) }
{
    let bits = wanted.bits();
    let mut best = None;
    for candidate in candidates {
        // The signature passes over nearly all.
        if bits & candidate.bits == bits {
            best = better(cell, *candidate, from, wanted, best);
        }
    }
    best
}

// The candidate, if it is from the number on, comes before the best so far, and is met.
fn better<'a>(
    cell: &'a Cell,
    candidate: Signed,
    from: u64,
    wanted: &Wanted<'_>,
    best: Option<&'a Occurrence>,
) -> Option<&'a Occurrence>
    ensures { (seen : List Signed) → IsBest wanted.now.sought cell.now.clauses from seen (option_map (λ o. o.now) best.entry) → IsBest wanted.now.sought cell.now.clauses from (seen ++ candidate ∷ []) (option_map (λ o. o.now) result) }
{
    if candidate.number < from || is_up_to(best, candidate.number) {
        return best;
    }
    match met(cell, candidate, wanted) {
        Some(found) => Some(found),
        None => best,
    }
}

// Whether there is a clause, with the number or a lesser one.
fn is_up_to(clause: Option<&Occurrence>, number: u64) -> bool
    ensures { result ≡ is_up_to (option_map (λ o. o.now) clause.entry) number }
{
    match clause {
        Some(found) => found.number() <= number,
        None => false,
    }
}

// The clause of the candidate, if the cell has it and it is wanted.
fn met<'a>(cell: &'a Cell, candidate: Signed, wanted: &Wanted<'_>) -> Option<&'a Occurrence>
    ensures some { IfSome result (λ o. IsMet wanted.now.sought cell.now.clauses o.now) }
    ensures number { IfSome result (λ o. o.now.number ≡ candidate.number) }
    ensures none { IfNone result ((c : Named) → Contains cell.now.clauses c → signed c ≡ candidate → IsFalse (subsumes wanted.now.sought c)) }
{
    if candidate.number == wanted.number() {
        return None;
    }
    let found = standing(cell, candidate.number)?;
    if wanted.is_met_by(found) {
        Some(found)
    } else {
        None
    }
}

// The clause that stands in the cell under the number.
fn standing(cell: &Cell, number: u64) -> Option<&Occurrence>
    ensures some { IfSome result (λ o. Contains cell.now.clauses o.now) }
    ensures number { IfSome result (λ o. o.now.number ≡ number) }
    ensures only { (c : Named) → Contains cell.now.clauses c → c.number ≡ number → option_map (λ o. o.now) result ≡ Some c }
{
    // It says of the cell that the numbers rise.
    let _ = cell.var();
    let found = cell.occurrences_from(number).next()?;
    if found.number() == number {
        Some(found)
    } else {
        None
    }
}
