//! What was read of a model: whether there was a status line, and the values that were given.

ghost use Rattle.std.specs.Prelude.{◌≡◌, ◌+◌, ◌≤◌, ◌<◌, ℕ, None, OnOk, length, slice_index_or, vec_len, true};
ghost use Rattle.cp_extend.specs.Grammar.{is_value, nothing_read, values_of, with_status};
ghost use Rattle.cp_extend.specs.Steps.{GivesLiteral};
ghost use Rattle.cp_extend.specs.Held.{reading_of};

use cp_logic::{Assignment, Lit};
use std::alloc::{AllocError, Global};

// Whether there was a status line, and the values by variable, up to the last that was given. The variable 0 has none.
#[derive(Drop)]
pub(crate) struct Progress {
    has_status: bool,
    values: Vec<Option<bool>>,
}

#[tactic(auto, unfolding(crate::specs::Held::reading_of))]
impl Progress {
    // Nothing is read.
    pub(crate) fn new(alloc: Global) -> Progress
        ensures { reading_of result ≡ nothing_read }
    {
        Progress {
            has_status: false,
            values: Vec::new(alloc),
        }
    }

    // Whether there was a status line.
    pub(crate) fn has_status(&self) -> bool
        ensures { result ≡ (reading_of self.now).status }
    {
        self.has_status
    }

    // There was a status line.
    pub(crate) fn note_status(&mut self)
        ensures { reading_of self.new ≡ with_status (reading_of self.old) }
    {
        self.has_status = true;
    }

    // Gives the variable its value. False where it has the other one.
    pub(crate) fn give(&mut self, var: u32, value: bool) -> Result<bool, AllocError>
        ensures { GivesLiteral (reading_of self.old) (record { positive = value; size = var }) result (reading_of self.new) }
    {
        let place = var as usize;
        make_room(&mut self.values, place + 1)?;
        if let Some(given) = self.values[place] {
            return Ok(given == value);
        }
        self.values[place] = Some(value);
        Ok(true)
    }

    // Whether the variable was given the value true.
    fn is_true(&self, var: u32) -> bool
        ensures { result ≡ is_value true ((reading_of self.now).given var) }
    {
        matches!(self.values.get(var as usize), Some(Some(true)))
    }

    // Gives each variable of the model its value: one that wasn't named is false.
    pub(crate) fn fill(&self, model: &mut Assignment)
        requires { length model.old ≤ 2000000 }
        ensures { model.new ≡ values_of (length model.old) (reading_of self.now).given }
    {
        let vars = model.len();
        'variables: for index in 0..vars {
            let var = index + 1;
            model.set(Lit::new(var, self.is_true(var)));
        }
    }
}

// So many places, of which the new ones have no value.
fn make_room(values: &mut Vec<Option<bool>>, places: usize) -> Result<(), AllocError>
    ensures same { (x : ℕ) → slice_index_or values.new.items x None ≡ slice_index_or values.old.items x None }
    ensures room { OnOk result (places ≤ vec_len values.new) }
{
    'places: while values.len() < places {
        values.push(None)?;
    }
    Ok(())
}
