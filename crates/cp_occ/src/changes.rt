//! What an entry that is posted does to the cells: all memory is taken first, and then its clauses go and come.
ghost use Rattle.std.specs.Prelude.{◌≡◌, ◌<◌, ◌≤◌, ◌++◌, [], ◌∷◌, length, map, slice_index_or, IsTrue, OnOk, IfOk};
ghost use Rattle.std.specs.List.{All};
ghost use Rattle.cp_logic.specs.Clauses.{contains, has_variable, IsAscending};
ghost use Rattle.cp_logic.specs.Formulas.{numbers_of, occurrences};
ghost use Rattle.cp_logic.specs.Entries.{new_clauses};
ghost use Rattle.cp_logic.specs.Views.{entry_of};
ghost use Rattle.cp_occ.specs.Cells.{variables_after, variables_of, lists_of};
ghost use Rattle.cp_occ.specs.Changes.{AreOver, places_of, HasRoom, IsChange, lists_after, IsRoomier, IsWithout, IsWith, IsChanged, Each};

use crate::cell::Cell;
use crate::cells::Cells;
use crate::place::Place;
use crate::variables::Variables;
use cp_logic::{Clause, Entry, Named};
use std::alloc::{AllocError, Global};
use std::marker::Model;

// Places of one clause, seen as the list of what stands there.
#[derive(Drop)]
pub(crate) struct Places {
    list: Vec<Place>,
}

impl Model for Places {
    ghost use Rattle.std.specs.Prelude.{ℕ, List};

    ghost Value = { List (List ℕ) };

    ghost view = { λ p. p.list.items };
}

/// For each new clause of an entry its places, one for each of its variables, seen as the lists of what stands there.
#[derive(Drop)]
pub struct Prepared {
    places: Vec<Places>,
}

impl Model for Prepared {
    ghost use Rattle.std.specs.Prelude.{ℕ, List};

    ghost Value = { List (List (List ℕ)) };

    ghost view = { λ p. p.places.items };
}

impl Cells {
    /// Takes all memory that the entry needs: places of its new clauses, and room in the cells of their variables. The error
    /// comes only for want of memory. The cells list what they listed, also after an error.
    pub fn prepare(&mut self, alloc: Global, entry: &Entry) -> Result<Prepared, AllocError>
        requires ascending { IsAscending (variables_of self.old.items) }
        requires within { All (λ c. AreOver (variables_of self.old.items) c.clause) (new_clauses (entry_of entry.now)) }
        ensures variables { variables_of self.new.items ≡ variables_of self.old.items }
        ensures lists { lists_of self.new.items ≡ lists_of self.old.items }
        ensures spare { self.new.spare ≡ self.old.spare }
        ensures places { IfOk result (λ p. p ≡ places_of (entry_of entry.now)) }
        ensures room { OnOk result (HasRoom self.new.items (entry_of entry.now)) }
    {
        let added = entry.new_clauses();
        make_room_for_all(self.cells.as_mut_slice(), added)?;
        Ok(Prepared {
            places: places_of_all(alloc, added)?,
        })
    }

    /// Takes each clause that the entry removes out of the cells of its variables, and puts each new clause of the entry into
    /// the cells of its own, under its number. It takes no memory.
    pub fn apply(&mut self, entry: &Entry, prepared: Prepared)
        requires ascending { IsAscending (variables_of self.old.items) }
        requires change { IsChange self.old.items (entry_of entry.now) }
        requires places { prepared ≡ places_of (entry_of entry.now) }
        requires room { HasRoom self.old.items (entry_of entry.now) }
        ensures variables { variables_of self.new.items ≡ variables_of self.old.items }
        ensures lists { lists_of self.new.items ≡ lists_after self.old.items (entry_of entry.now) }
        ensures spare { self.new.spare ≡ self.old.spare }
    {
        let (first, second) = entry.gone_clauses();
        change(
            self.cells.as_mut_slice(),
            first,
            second,
            entry.new_clauses(),
            prepared.places,
        );
    }
}

// Makes room in the cells of the variables of the clauses. As many as all may come into one cell.
fn make_room_for_all(cells: &mut [Cell], added: &[Named]) -> Result<(), AllocError>
    requires ascending { IsAscending (variables_of cells.old) }
    requires within { All (λ c. AreOver (variables_of cells.old) c.clause) added.now }
    ensures len { length cells.new ≡ length cells.old }
    ensures variables { variables_of cells.new ≡ variables_of cells.old }
    ensures lists { lists_of cells.new ≡ lists_of cells.old }
    ensures room { OnOk result (All (λ cell. length (occurrences added.now cell.variable) ≤ cell.spare) cells.new) }
{
    let most = added.len();
    for named in added {
        make_room(cells, named, most)?;
    }
    Ok(())
}

// Makes room for `n` clauses in the cells of the clause's variables.
fn make_room(cells: &mut [Cell], added: &Named, n: usize) -> Result<(), AllocError>
    requires ascending { IsAscending (variables_of cells.old) }
    requires within { AreOver (variables_of cells.old) added.now.clause }
    ensures len { length cells.new ≡ length cells.old }
    ensures variables { variables_of cells.new ≡ variables_of cells.old }
    ensures lists { lists_of cells.new ≡ lists_of cells.old }
    ensures room { OnOk result (Each (IsRoomier n (added.now ∷ [])) cells.old cells.new) }
{
    for var in Variables::of(&added.clause) {
        let index = index_of(cells, var);
        cells[index].reserve(n)?;
    }
    Ok(())
}

// Places of each of the clauses, one for each of its variables.
fn places_of_all(alloc: Global, added: &[Named]) -> Result<Vec<Places>, AllocError>
    ensures { IfOk result (λ ps. ps.items ≡ map (λ c. map (λ v. c.clause) (variables_after 0 c.clause)) added.now) }
{
    let mut all = Vec::with_capacity(alloc, added.len())?;
    for named in added {
        all.push(places_of_clause(alloc, &named.clause)?)?;
    }
    Ok(all)
}

// Places of the clause, one for each of its variables.
fn places_of_clause(alloc: Global, clause: &Clause) -> Result<Places, AllocError>
    ensures { IfOk result (λ ps. ps ≡ map (λ v. clause.now) (variables_after 0 clause.now)) }
{
    let first = Place::new(alloc, clause.again()?)?;
    let mut places = Vec::with_capacity(alloc, clause.lits().len())?;
    for _var in Variables::of(clause) {
        places.push(first.again()?)?;
    }
    Ok(Places { list: places })
}

// Takes the clauses of two lists out of the cells, and puts those of a third one in.
fn change(
    cells: &mut [Cell],
    first: &[Named],
    second: &[Named],
    added: &[Named],
    places: Vec<Places>,
)
    requires ascending { IsAscending (variables_of cells.old) }
    requires gone_within { All (λ c. AreOver (variables_of cells.old) c.clause) (first.now ++ second.now) }
    requires within { All (λ c. AreOver (variables_of cells.old) c.clause) added.now }
    requires named { All (λ cell. All (λ c. All (λ g. c.number ≡ g.number → IsTrue (has_variable cell.variable g.clause)) (first.now ++ second.now)) cell.clauses) cells.old }
    requires above { All (λ cell. All (λ c. All (λ n. c.number < n.number) added.now) cell.clauses) cells.old }
    requires rising { IsAscending (numbers_of added.now) }
    requires room { All (λ cell. length (occurrences added.now cell.variable) ≤ cell.spare) cells.old }
    requires places { places.items ≡ map (λ c. map (λ v. c.clause) (variables_after 0 c.clause)) added.now }
    ensures { Each (IsChanged (first.now ++ second.now) added.now) cells.old cells.new }
{
    remove_all(cells, first);
    remove_all(cells, second);
    insert_all(cells, added, places);
}

// Takes the clauses out of the cells of their variables.
fn remove_all(cells: &mut [Cell], gone: &[Named])
    requires ascending { IsAscending (variables_of cells.old) }
    requires within { All (λ c. AreOver (variables_of cells.old) c.clause) gone.now }
    requires named { All (λ cell. All (λ c. All (λ g. c.number ≡ g.number → IsTrue (has_variable cell.variable g.clause)) gone.now) cell.clauses) cells.old }
    ensures { Each (IsWithout gone.now) cells.old cells.new }
{
    for named in gone {
        remove_everywhere(cells, named);
    }
}

// Takes the clause out of the cells of its variables.
fn remove_everywhere(cells: &mut [Cell], gone: &Named)
    requires ascending { IsAscending (variables_of cells.old) }
    requires within { AreOver (variables_of cells.old) gone.now.clause }
    requires named { All (λ cell. All (λ c. c.number ≡ gone.now.number → IsTrue (has_variable cell.variable gone.now.clause)) cell.clauses) cells.old }
    ensures { Each (IsWithout (gone.now ∷ [])) cells.old cells.new }
{
    for var in Variables::of(&gone.clause) {
        let index = index_of(cells, var);
        let _ = cells[index].remove(gone.number);
    }
}

// Puts the clauses into the cells of their variables, each by its places.
fn insert_all(cells: &mut [Cell], added: &[Named], places: Vec<Places>)
    requires ascending { IsAscending (variables_of cells.old) }
    requires within { All (λ c. AreOver (variables_of cells.old) c.clause) added.now }
    requires above { All (λ cell. All (λ c. All (λ n. c.number < n.number) added.now) cell.clauses) cells.old }
    requires rising { IsAscending (numbers_of added.now) }
    requires room { All (λ cell. length (occurrences added.now cell.variable) ≤ cell.spare) cells.old }
    requires places { places.items ≡ map (λ c. map (λ v. c.clause) (variables_after 0 c.clause)) added.now }
    ensures { Each (IsWith added.now) cells.old cells.new }
{
    let mut left = places.into_iter();
    for named in added {
        let Some(places) = left.next() else {
            unreachable!()
        };
        insert_everywhere(cells, named, places);
    }
}

// Puts the clause into the cells of its variables, by one of its places for each.
fn insert_everywhere(cells: &mut [Cell], added: &Named, places: Places)
    requires ascending { IsAscending (variables_of cells.old) }
    requires within { AreOver (variables_of cells.old) added.now.clause }
    requires above { All (λ cell. All (λ c. c.number < added.now.number) cell.clauses) cells.old }
    requires room { All (λ cell. IsTrue (has_variable cell.variable added.now.clause) → 0 < cell.spare) cells.old }
    requires places { places ≡ map (λ v. added.now.clause) (variables_after 0 added.now.clause) }
    ensures { Each (IsWith (added.now ∷ [])) cells.old cells.new }
{
    let mut left = places.list;
    for var in Variables::of(&added.clause) {
        let Some(place) = left.pop() else {
            unreachable!()
        };
        let index = index_of(cells, var);
        cells[index].insert(added.number, place);
    }
}

// The index of the variable's cell. In the list of the cells of all variables it is one less than the variable, so that is
// looked at before the list is searched.
fn index_of(cells: &[Cell], var: u32) -> usize
    requires ascending { IsAscending (variables_of cells.now) }
    requires has { IsTrue (contains (variables_of cells.now) var) }
    ensures bound { result < length cells.now }
    ensures variable { (d : _) → (slice_index_or cells.now result d).variable ≡ var }
{
    let likely = (var as usize).wrapping_sub(1);
    match cells.get(likely) {
        Some(cell) if cell.var() == var => likely,
        _ => searched_index(cells, var),
    }
}

// The index of the variable's cell, by binary search.
fn searched_index(cells: &[Cell], var: u32) -> usize
    requires ascending { IsAscending (variables_of cells.now) }
    requires has { IsTrue (contains (variables_of cells.now) var) }
    ensures bound { result < length cells.now }
    ensures variable { (d : _) → (slice_index_or cells.now result d).variable ≡ var }
{
    match cells.binary_search_by_key(&var, |cell| cell.var()) {
        Ok(index) => index,
        Err(_) => unreachable!(),
    }
}
