// A carrier that writes lines of a form over lent memory.
ghost use Rattle.std.specs.Prelude.{◌≡◌, ℕ, ◌+◌, ◌*◌, ◌/◌, min, List, [], ◌∷◌, length};
ghost use Rattle.rows.specs.Lines.{rows_of};
ghost use Rattle.rows.specs.Whole.{rows_whole};

use crate::carriers::{Carrier, Source};
use crate::lines::{copy_held, line_count, put_line};
use forms::Form;
use refusals::CarrierFault;
use std::marker::PhantomData;

// The memory is the caller's, since the engine has no heap: the rows held are the first `held` lines of it.
// That they lie in it is no ghost field: the field would name the form's size, and so ask a bound of whoever names this type.
#[derive(Drop)]
pub struct Written<'a, F> {
    memory: &'a mut [u8],
    held: usize,
    form: PhantomData<F>,
}

impl<'a, F: Form> Written<'a, F> {
    pub fn over(memory: &'a mut [u8]) -> Written<'a, F>
        ensures { (result.memory ≡ memory.entry) × (result.held ≡ 0) }
    {
        Written {
            memory,
            held: 0,
            form: PhantomData,
        }
    }

    // What the memory holds.
    pub fn bytes(&self) -> &[u8]
        ensures { result.now ≡ self.now.memory.now }
    {
        self.memory
    }
}

impl<'a, F: Form> Source for Written<'a, F> {
    ghost rows = { λ w. rows_of F.Form.decoded F.Form.size (min w.held (length w.memory.now / F.Form.size)) w.memory.now };

    ghost whole = { λ w. rows_whole F.Form.decoded F.Form.size F.Form.whole w.held w.memory.now };

    fn count(&self) -> usize {
        self.held.min(line_count::<F>(self.memory))
    }

    fn copy_row(&self, n: usize, out: &mut [u8; 750]) -> Result<(), CarrierFault> {
        copy_held::<F>(self.memory, self.count(), n, out)
    }
}

impl<'a, F: Form> Carrier for Written<'a, F> {
    ghost places = { λ w. length w.memory.now / F.Form.size };

    ghost memory = { λ w. w.memory.now };

    ghost size = { F.Form.size };

    ghost line = { F.Form.encoded };

    ghost lenders = { λ w. w.memory.ghost_name ∷ [] };

    fn places(&self) -> usize {
        line_count::<F>(self.memory)
    }

    fn push(&mut self, row: &[u8; 750]) -> Result<(), CarrierFault> {
        let places = self.places();
        if self.held >= places {
            return Err(CarrierFault::Full(places));
        }
        put_line::<F>(self.memory, self.held, row);
        self.held += 1;
        Ok(())
    }
}
