//! Candidates drawn apart: numbers that are drawn one after the other stand for variables that are far from each other.
//!
//! Workers draw numbers from one counter, so those that are at work at the same time have neighbouring numbers. Encoders number together
//! what belongs together, as the bits of a word or the gates of an adder, so variables that are neighbours in number are often neighbours
//! in the formula. If the number d stood for the variable d + 1, workers would so lock each other out: a worker leaves a variable whose
//! neighbourhood another one holds, and the sweep, which is one thread, has to do what they left.
//!
//! Here the variables form a block of neighbours for each of W workers, and the numbers go round the blocks: of V variables
//! q = V / W are in a block, and the number d below W * q stands for the place d / W in the block d % W. While the workers keep step,
//! each is in a block of its own. What is left, fewer variables than workers, follows in order, and one worker has all in order. In
//! a table with a column for each worker this exchanges rows and columns (`specs/Candidates.antt`), so each variable has one number.
//!
//! A counter for each block would say the same, but a worker at the end of its block would have to find another one; the one counter
//! gives a slow worker fewer numbers by itself. A random order would set neighbours apart as well, but take memory, or a
//! permutation that is harder to invert.
ghost use Rattle.std.specs.Prelude.{◌≡◌, ◌≤◌, ◌<◌};
ghost use Rattle.cp_worker.specs.Candidates.{candidate_of};

/// The variable that the drawn number stands for, of so many variables and workers.
pub(crate) fn candidate_at(number: u64, vars: u32, workers: u32) -> u32
    requires workers { 1 ≤ workers }
    requires number { number < vars }
    ensures value { result ≡ candidate_of workers vars number }
    ensures range { (1 ≤ result) × (result ≤ vars) }
{
    let number = number as u32;
    let rows = vars / workers;
    if number >= workers * rows {
        return number + 1;
    }
    number % workers * rows + number / workers + 1
}
