//! Tables of the negations of one clause's literals, for questions about many other clauses.
//!
//! Whether the resolvents of one clause with many others are tautologies is asked again and again: of a clause that may be blocked, and
//! of each clause of a variable that may be eliminated. CaDiCaL's `block.cpp` and MiniSat's `merge` go over both clauses or mark the
//! literals of the one in an array over all variables. Here the marks lie in 128 bytes, by a multiplicative hash (Knuth, The Art of
//! Computer Programming, volume 3, 6.4), and a literal that is marked is searched in the clause before it counts. So a table costs no
//! memory, and a question one step for each literal of the other clause, most of which are not marked.
ghost use Rattle.std.specs.Prelude.{◌≡◌, ◌<◌, ℕ, false, IsTrue};
ghost use Rattle.cp_logic.specs.Literals.{negated};
ghost use Rattle.cp_logic.specs.Clauses.{contains, has_negation, is_tautology, resolvent, IsAscending};
ghost use Rattle.cp_logic.specs.Marks.{place_of, is_set};

use crate::lits::Lit;
use crate::searches::contains;
use std::marker::Model;

/// The literals of a clause, seen as their list, with a table in which the negation of each is marked. It takes no memory.
#[derive(Drop)]
pub struct Negations<'a> {
    lits: &'a [Lit],
    words: [u64; 16],
}

impl<'a> Model for Negations<'a> {
    ghost use Rattle.std.specs.Prelude.{ℕ, List};
    ghost use Rattle.cp_logic.specs.Clauses.{IsAscending};
    ghost use Rattle.cp_logic.specs.Marks.{AreMarked};

    ghost Value = { List ℕ };

    ghost view = { λ n. n.lits.now };

    ghost invariant = { λ n. IsAscending n.lits.now × AreMarked n.words n.lits.now };
}

impl<'a> Negations<'a> {
    /// The table of a clause's literals.
    pub fn of(lits: &'a [Lit]) -> Negations<'a>
        requires { IsAscending lits.now }
        ensures { result ≡ lits.now }
    {
        let mut words = [0; 16];
        for lit in lits {
            set(&mut words, place_of(lit.negated()));
        }
        Negations { lits, words }
    }

    /// Whether the resolvent of this clause on the pivot, and of another on its negation, is a tautology, where neither of the two is.
    /// Then a literal of the other has its negation in this one. The other's literals are read once, in any order.
    pub fn clash_with(&self, other: &[Lit], pivot: Lit) -> bool
        requires proper { is_tautology self.now ≡ false }
        requires other_proper { is_tautology other.now ≡ false }
        ensures { result ≡ is_tautology (resolvent pivot self.now other.now) }
    {
        self.meet(other, pivot.negated())
    }

    // Whether one of the literals, other than the pivot, has its negation in the clause.
    fn meet(&self, lits: &[Lit], pivot: Lit) -> bool
        ensures { result ≡ has_negation lits.now pivot self.now }
    {
        for lit in lits {
            if *lit != pivot && self.have_negation(*lit) {
                return true;
            }
        }
        false
    }

    // Whether the clause has the literal's negation.
    fn have_negation(&self, lit: Lit) -> bool
        ensures { result ≡ contains self.now (negated lit) }
    {
        is_set(&self.words, place_of(lit)) && contains(self.lits, lit.negated())
    }
}

// The literal's place in a table.
fn place_of(lit: Lit) -> usize
    ensures value { result ≡ place_of lit }
    ensures within { result < 1024 }
{
    (lit.code().wrapping_mul(2_654_435_769) >> 22) as usize
}

// Whether the bit at the place is set.
fn is_set(words: &[u64; 16], place: usize) -> bool
    requires { place < 1024 }
    ensures { result ≡ is_set words.now place }
{
    (words[place / 64] >> (place % 64)) % 2 == 1
}

// Sets the bit at the place.
fn set(words: &mut [u64; 16], place: usize)
    requires { place < 1024 }
    ensures set { IsTrue (is_set words.new place) }
    ensures others { (other : ℕ) → IsTrue (is_set words.old other) → IsTrue (is_set words.new other) }
{
    words[place / 64] |= 1 << (place % 64);
}
