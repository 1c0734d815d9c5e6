// The fixed layer: a store whose universe keeps only the codes that have every bit of a mask.
ghost use Rattle.std.specs.Prelude.{◌≡◌, ◌&&◌};
ghost use Rattle.store.specs.Frames.{frame_bits};
ghost use Rattle.store.specs.Calls.{one_set, Alters};
ghost use Rattle.store.specs.Masks.{covers, fixed_frame, fixed_sound};

use crate::calls::Store;
use crate::fault::Fault;

#[derive(Drop)]
pub struct Fixed<S> {
    below: S,
    mask: usize,
}

impl<S: Store> Fixed<S> {
    pub fn new(below: S, mask: usize) -> Fixed<S>
        ensures below { result.below ≡ below }
        ensures mask { result.mask ≡ mask }
    {
        Fixed { below, mask }
    }

    pub fn into_below(self) -> S
        ensures { result ≡ self.below }
    {
        let Fixed { below, mask: _ } = self;
        below
    }
}

// One pick for each bit of the mask, lowest first.
fn pick_each<S: Store>(s: &mut S, i: usize, mask: usize) -> Result<(), Fault>
    ensures { Alters (S.frame s.old) (S.frame s.new) (S.sets s.old) (S.sets s.new) result (one_set (S.frame s.old) i) i (λ c. S.sets s.old i c && covers (frame_bits (S.frame s.old)) mask c) }
{
    if i >= s.set_count() {
        return Err(Fault::NoSuchSet);
    }
    let n = s.actions() * s.variables();
    for b in 0..n {
        if (mask >> b) % 2 == 1 {
            s.pick(i, b)?;
        }
    }
    Ok(())
}

impl<S: Store> Store for Fixed<S> {
    ghost frame = { λ s. fixed_frame (S.Store.frame s.below) s.mask };

    ghost sets = { λ s. S.Store.sets s.below };

    ghost sound = { λ s. fixed_sound (S.Store.frame s.below) s.mask (S.Store.sound s.below) };

    ghost coded = { λ s. S.Store.coded s.below };

    fn actions(&self) -> usize {
        self.below.actions()
    }

    fn variables(&self) -> usize {
        self.below.variables()
    }

    fn set_count(&self) -> usize {
        self.below.set_count()
    }

    fn clear(&mut self, i: usize) -> Result<(), Fault> {
        self.below.clear(i)
    }

    fn fill(&mut self, i: usize) -> Result<(), Fault> {
        self.below.fill(i)?;
        pick_each(&mut self.below, i, self.mask)
    }

    fn copy(&mut self, i: usize, j: usize) -> Result<(), Fault> {
        self.below.copy(i, j)
    }

    fn join(&mut self, i: usize, j: usize) -> Result<(), Fault> {
        self.below.join(i, j)
    }

    fn meet(&mut self, i: usize, j: usize) -> Result<(), Fault> {
        self.below.meet(i, j)
    }

    fn flip(&mut self, i: usize) -> Result<(), Fault> {
        self.below.flip(i)?;
        pick_each(&mut self.below, i, self.mask)
    }

    fn pick(&mut self, i: usize, b: usize) -> Result<(), Fault> {
        self.below.pick(i, b)
    }

    fn same(&self, i: usize, j: usize) -> Result<bool, Fault> {
        self.below.same(i, j)
    }

    fn has(&self, i: usize, c: usize) -> Result<bool, Fault> {
        self.below.has(i, c)
    }

    fn next(&self, i: usize, c: usize) -> Result<Option<usize>, Fault> {
        self.below.next(i, c)
    }
}
