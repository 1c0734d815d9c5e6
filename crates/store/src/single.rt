// The single store: its universe is one valuation, and each set is one byte of the caller's.
ghost use Rattle.std.specs.Prelude.{◌≡◌, true, false, not, ◌==◌, ◌&&◌, ◌||◌};
ghost use Rattle.logic.specs.Codes.{bit};
ghost use Rattle.store.specs.Calls.{one_set, two_sets, set_and_bit, Answers};
ghost use Rattle.store.specs.Singles.{code_held, marked, single_frame, single_sets, Opened, SingleAlters, Writes};
ghost use Rattle.store.specs.SingleLaws.{single_sound, single_coded};

use crate::calls::Store;
use crate::fault::Fault;
use crate::shape::Shape;

#[derive(Drop)]
pub struct Single<'a> {
    shape: Shape,
    code: usize,
    cells: &'a mut [u8],
}

impl<'a> Single<'a> {
    pub fn open(shape: Shape, code: usize, cells: &'a mut [u8]) -> Result<Single<'a>, Fault>
        ensures { Opened shape code cells.old result }
    {
        if shape.is_valuation(code) {
            Ok(Single { shape, code, cells })
        } else {
            Err(Fault::NoValuation)
        }
    }

    // The code, if it is a valuation, and else that of all actions for each variable.
    fn valuation(&self) -> usize
        ensures { result ≡ code_held self.now.shape self.now.code }
    {
        if self.shape.is_valuation(self.code) {
            self.code
        } else {
            self.shape.codes() - 1
        }
    }

    // Whether the set i has the valuation.
    fn holds(&self, i: usize) -> Result<bool, Fault>
        ensures { Answers result (one_set (single_frame self.now) i) (λ b. b ≡ marked self.now.cells.now i) }
    {
        self.cells
            .get(i)
            .map(|cell| 0 < *cell)
            .ok_or(Fault::NoSuchSet)
    }

    // Leaves 1 in the byte of the set i, or 0.
    fn mark(&mut self, i: usize, on: bool) -> Result<(), Fault>
        ensures alters { SingleAlters self.old self.new result (one_set (single_frame self.old) i) i (λ c. c == code_held self.old.shape self.old.code && on) }
        ensures bytes { Writes self.old self.new result i on }
    {
        if i >= self.cells.len() {
            return Err(Fault::NoSuchSet);
        }
        self.cells[i] = u8::from(on);
        Ok(())
    }
}

impl<'a> Store for Single<'a> {
    ghost frame = { single_frame };

    ghost sets = { single_sets };

    ghost sound = { single_sound };

    ghost coded = { single_coded };

    fn actions(&self) -> usize {
        self.shape.actions()
    }

    fn variables(&self) -> usize {
        self.shape.variables()
    }

    fn set_count(&self) -> usize {
        self.cells.len()
    }

    fn clear(&mut self, i: usize) -> Result<(), Fault>
        ensures alters { SingleAlters self.old self.new result (one_set (single_frame self.old) i) i (λ _. false) }
        ensures bytes { Writes self.old self.new result i false }
    {
        self.mark(i, false)
    }

    fn fill(&mut self, i: usize) -> Result<(), Fault>
        ensures alters { SingleAlters self.old self.new result (one_set (single_frame self.old) i) i (λ c. (single_frame self.old).universe c) }
        ensures bytes { Writes self.old self.new result i true }
    {
        self.mark(i, true)
    }

    fn copy(&mut self, i: usize, j: usize) -> Result<(), Fault>
        ensures alters { SingleAlters self.old self.new result (two_sets (single_frame self.old) i j) i (λ c. single_sets self.old j c) }
        ensures bytes { Writes self.old self.new result i (marked self.old.cells.now j) }
    {
        let on = self.holds(j)?;
        self.mark(i, on)
    }

    fn join(&mut self, i: usize, j: usize) -> Result<(), Fault>
        ensures alters { SingleAlters self.old self.new result (two_sets (single_frame self.old) i j) i (λ c. single_sets self.old i c || single_sets self.old j c) }
        ensures bytes { Writes self.old self.new result i (marked self.old.cells.now i || marked self.old.cells.now j) }
    {
        let either = self.holds(i)? | self.holds(j)?;
        self.mark(i, either)
    }

    fn meet(&mut self, i: usize, j: usize) -> Result<(), Fault>
        ensures alters { SingleAlters self.old self.new result (two_sets (single_frame self.old) i j) i (λ c. single_sets self.old i c && single_sets self.old j c) }
        ensures bytes { Writes self.old self.new result i (marked self.old.cells.now i && marked self.old.cells.now j) }
    {
        let both = self.holds(i)? & self.holds(j)?;
        self.mark(i, both)
    }

    fn flip(&mut self, i: usize) -> Result<(), Fault>
        ensures alters { SingleAlters self.old self.new result (one_set (single_frame self.old) i) i (λ c. (single_frame self.old).universe c && not (single_sets self.old i c)) }
        ensures bytes { Writes self.old self.new result i (not (marked self.old.cells.now i)) }
    {
        let on = self.holds(i)?;
        self.mark(i, !on)
    }

    fn pick(&mut self, i: usize, b: usize) -> Result<(), Fault>
        ensures alters { SingleAlters self.old self.new result (set_and_bit (single_frame self.old) i b) i (λ c. single_sets self.old i c && bit c b) }
        ensures bytes { Writes self.old self.new result i (marked self.old.cells.now i && bit (code_held self.old.shape self.old.code) b) }
    {
        let on = self.holds(i)?;
        if b >= self.shape.bits() {
            return Err(Fault::NoSuchBit);
        }
        let bit = (self.valuation() >> b) % 2 == 1;
        self.mark(i, on & bit)
    }

    fn same(&self, i: usize, j: usize) -> Result<bool, Fault> {
        Ok(self.holds(i)? == self.holds(j)?)
    }

    fn has(&self, i: usize, c: usize) -> Result<bool, Fault> {
        let on = self.holds(i)?;
        if c >= self.shape.codes() {
            return Err(Fault::CodeTooHigh);
        }
        Ok((c == self.valuation()) & on)
    }

    fn next(&self, i: usize, c: usize) -> Result<Option<usize>, Fault> {
        let on = self.holds(i)?;
        if c > self.shape.codes() {
            return Err(Fault::CodeTooHigh);
        }
        let code = self.valuation();
        Ok((on & (c <= code)).then_some(code))
    }
}
