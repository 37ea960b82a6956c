//! A set of numbers in which the next one from a given number on is found fast, however few there are.
//!
//! Each number is a bit of a word, and a second level of words says which of the first are not 0. A search reads one word of the
//! first level, then the words of the second one after it, and then the word that these point to: among two million numbers, of
//! which only the last one is in the set, that is some five hundred words and not thirty thousand. An ordered tree would take memory
//! at each insertion, and a list of the numbers in order the time of all of them.
ghost use Rattle.std.specs.Prelude.{◌≡◌, ◌≢◌, ◌<◌, ◌≤◌, ◌+◌, ◌*◌, ◌/◌, ◌^◌, ◌==◌, ◌||◌, ◌&&◌, not, ℕ, true, false, length, slice_index, slice_set, replicate, IfOk, IfNone};
ghost use Rattle.cp_sweep.specs.Marks.{is_marked, is_set, has_bit, IsFirst, IsFirstBelow, IsFirstAround};

use std::alloc::{AllocError, Global};
use std::marker::Model;

/// A set of numbers below a fixed end, seen as a list that says of each number whether it is marked.
#[derive(Drop)]
pub(crate) struct Marks {
    // The bits of the numbers.
    bits: Words,
    // The bits of those of these words that are not 0.
    filled: Words,
}

impl Model for Marks {
    ghost use Rattle.std.specs.Prelude.{List, Bool};
    ghost use Rattle.cp_sweep.specs.Marks.{marks_of, AreFilled};

    ghost Value = { List Bool };

    ghost view = { λ m. marks_of m.bits };

    ghost invariant = { λ m. AreFilled m.bits m.filled };
}

impl Marks {
    /// Room for marks at the numbers from 0 to `last`, none of which is marked. It takes all memory that the marks will need.
    pub(crate) fn new(alloc: Global, last: u32) -> Result<Marks, AllocError>
        ensures room { IfOk result (λ m. last < length m) }
        ensures none { IfOk result (λ m. (i : ℕ) → is_marked m i ≡ false) }
    {
        let count = last as usize / 64 + 1;
        Ok(Marks {
            bits: Words::new(alloc, count)?,
            filled: Words::new(alloc, count / 64 + 1)?,
        })
    }

    /// Marks the number. It takes no memory.
    pub(crate) fn insert(&mut self, i: usize)
        requires { i < length self.old }
        ensures { self.new ≡ slice_set self.old i true }
    {
        self.bits.set(i);
        self.filled.set(i / 64);
    }

    /// Takes the mark of the number away, if there is one.
    pub(crate) fn remove(&mut self, i: usize)
        requires { i < length self.old }
        ensures { self.new ≡ slice_set self.old i false }
    {
        self.bits.clear(i);
        if self.bits.is_zero(i / 64) {
            self.filled.clear(i / 64);
        }
    }

    /// The first number with a mark, from this number on.
    pub(crate) fn first_from(&self, i: usize) -> Option<usize>
        ensures { IsFirst (is_marked self.now) i result }
    {
        let found = self.bits.first_within(i / 64, (i % 64) as u32);
        if found.is_some() {
            return found;
        }
        let word = self.filled.first_from(i / 64 + 1)?;
        self.bits.first_within(word, 0)
    }

    /// The first number with a mark, from this number on and then from 0 on.
    pub(crate) fn first_around(&self, i: usize) -> Option<usize>
        ensures { IsFirstAround (is_marked self.now) i result }
    {
        let found = self.first_from(i);
        if found.is_some() {
            return found;
        }
        self.first_from(0)
    }
}

// Words of 64 bits, seen as their list. Bit i is that of the word at i / 64 from the lowest one up.
#[derive(Drop)]
struct Words {
    words: Vec<u64>,
}

impl Model for Words {
    ghost use Rattle.std.specs.Prelude.{ℕ, List};

    ghost Value = { List ℕ };

    ghost view = { λ w. w.words.items };
}

impl Words {
    // So many words that are 0.
    fn new(alloc: Global, count: usize) -> Result<Words, AllocError>
        ensures { IfOk result (λ w. w ≡ replicate count 0) }
    {
        Ok(Words {
            words: vec![in alloc; 0u64; count]?,
        })
    }

    // Whether the word at the position is 0, or past the end.
    fn is_zero(&self, word: usize) -> bool
        ensures { result ≡ (slice_index self.now word == 0) }
    {
        match self.words.get(word) {
            Some(bits) => *bits == 0,
            None => true,
        }
    }

    // Makes the bit 1.
    fn set(&mut self, i: usize)
        requires { i < 64 * length self.old }
        ensures len { length self.new ≡ length self.old }
        ensures bits { (k : ℕ) → is_set self.new k ≡ ((k == i) || is_set self.old k) }
        ensures others { (k : ℕ) → k ≢ i / 64 → slice_index self.new k ≡ slice_index self.old k }
    {
        self.words[i / 64] |= 1 << (i % 64);
    }

    // Makes the bit 0.
    fn clear(&mut self, i: usize)
        requires { i < 64 * length self.old }
        ensures len { length self.new ≡ length self.old }
        ensures bits { (k : ℕ) → is_set self.new k ≡ (not (k == i) && is_set self.old k) }
        ensures others { (k : ℕ) → k ≢ i / 64 → slice_index self.new k ≡ slice_index self.old k }
        ensures zero { slice_index self.old (i / 64) ≡ 0 → slice_index self.new (i / 64) ≡ 0 }
    {
        self.words[i / 64] &= !(1 << (i % 64));
    }

    // The first bit that is 1, from this bit on.
    fn first_from(&self, i: usize) -> Option<usize>
        requires { length self.now < 2 ^ 32 }
        ensures { IsFirst (is_set self.now) i result }
    {
        let mut word = i / 64;
        let mut low = (i % 64) as u32;
        'words: while word < self.words.len() {
            let found = self.first_within(word, low);
            if found.is_some() {
                return found;
            }
            word += 1;
            low = 0;
        }
        None
    }

    // The first bit that is 1 of the word at the position, from its bit `low` on.
    fn first_within(&self, word: usize, low: u32) -> Option<usize>
        requires few { length self.now < 2 ^ 32 }
        requires low { low < 64 }
        ensures first { IsFirstBelow (64 * word + 64) (is_set self.now) (64 * word + low) result }
        ensures nothing { IfNone result (slice_index self.now word / 2 ^ low ≡ 0) }
    {
        let here = self.words.get(word)?;
        let bit = first_bit(*here, low)?;
        Some(64 * word + bit as usize)
    }
}

// The first bit of the word that is 1, from the bit `low` on.
fn first_bit(word: u64, low: u32) -> Option<u32>
    requires { low < 64 }
    ensures first { IsFirstBelow 64 (has_bit word) low result }
    ensures nothing { IfNone result (word / 2 ^ low ≡ 0) }
{
    let rest = word >> low;
    if rest == 0 {
        None
    } else {
        Some(low + rest.trailing_zeros())
    }
}
