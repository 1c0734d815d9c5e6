// The full store: it keeps one bit for each code of each set in the caller's bytes.
ghost use Rattle.std.specs.Prelude.{◌≡◌, false, not, ◌&&◌, ◌||◌};
ghost use Rattle.logic.specs.Codes.{bit};
ghost use Rattle.store.specs.Calls.{one_set, two_sets, set_and_bit, Alters};
ghost use Rattle.full.specs.Stores.{full_lawful, full_coded};
ghost use Rattle.full.specs.Views.{shape_of, bytes_of, frame_of, sets_of, Rewrites};

use crate::universe::Universe;
use store::calls::Store;
use store::fault::Fault;
use store::shape::Shape;

#[derive(Drop)]
pub struct Full<'a> {
    universe: Universe,
    cells: &'a mut [u8],
}

impl<'a> Full<'a> {
    // The sets are what the bytes hold.
    pub fn open(shape: Shape, cells: &'a mut [u8]) -> Full<'a>
        ensures shape { shape_of result ≡ shape }
        ensures bytes { bytes_of result ≡ cells.old }
        ensures lent { result.cells.ghost_name ≡ cells.entry.ghost_name }
    {
        let universe = Universe::new(shape);
        Full { universe, cells }
    }
}

impl<'a> Store for Full<'a> {
    ghost frame = { frame_of };

    ghost sets = { sets_of };

    ghost sound = { λ s. full_lawful (shape_of s) (bytes_of s) };

    ghost coded = { λ s. full_coded (shape_of s) (bytes_of s) };

    fn actions(&self) -> usize {
        self.universe.layout.shape.actions()
    }

    fn variables(&self) -> usize {
        self.universe.layout.shape.variables()
    }

    fn set_count(&self) -> usize {
        self.universe.layout.sets_in(self.cells.len())
    }

    fn clear(&mut self, i: usize) -> Result<(), Fault>
        ensures sets { Alters (frame_of self.old) (frame_of self.new) (sets_of self.old) (sets_of self.new) result (one_set (frame_of self.old) i) i (λ c. false) }
        ensures bytes { Rewrites self.old self.new result i (λ c. false) }
        ensures universe { self.new.universe ≡ self.old.universe }
        ensures lent { self.new.cells.ghost_name ≡ self.old.cells.ghost_name }
    {
        let Full { universe, cells } = self;
        universe.clear(cells, i)
    }

    fn fill(&mut self, i: usize) -> Result<(), Fault>
        ensures sets { Alters (frame_of self.old) (frame_of self.new) (sets_of self.old) (sets_of self.new) result (one_set (frame_of self.old) i) i (λ c. (frame_of self.old).universe c) }
        ensures bytes { Rewrites self.old self.new result i (λ c. (frame_of self.old).universe c) }
        ensures universe { self.new.universe ≡ self.old.universe }
        ensures lent { self.new.cells.ghost_name ≡ self.old.cells.ghost_name }
    {
        let Full { universe, cells } = self;
        universe.fill(cells, i)
    }

    fn copy(&mut self, i: usize, j: usize) -> Result<(), Fault>
        ensures sets { Alters (frame_of self.old) (frame_of self.new) (sets_of self.old) (sets_of self.new) result (two_sets (frame_of self.old) i j) i (λ c. sets_of self.old j c) }
        ensures bytes { Rewrites self.old self.new result i (λ c. sets_of self.old j c) }
        ensures universe { self.new.universe ≡ self.old.universe }
        ensures lent { self.new.cells.ghost_name ≡ self.old.cells.ghost_name }
    {
        let Full { universe, cells } = self;
        universe.layout.copy(cells, i, j)
    }

    fn join(&mut self, i: usize, j: usize) -> Result<(), Fault>
        ensures sets { Alters (frame_of self.old) (frame_of self.new) (sets_of self.old) (sets_of self.new) result (two_sets (frame_of self.old) i j) i (λ c. sets_of self.old i c || sets_of self.old j c) }
        ensures bytes { Rewrites self.old self.new result i (λ c. sets_of self.old i c || sets_of self.old j c) }
        ensures universe { self.new.universe ≡ self.old.universe }
        ensures lent { self.new.cells.ghost_name ≡ self.old.cells.ghost_name }
    {
        let Full { universe, cells } = self;
        universe.layout.join(cells, i, j)
    }

    fn meet(&mut self, i: usize, j: usize) -> Result<(), Fault>
        ensures sets { Alters (frame_of self.old) (frame_of self.new) (sets_of self.old) (sets_of self.new) result (two_sets (frame_of self.old) i j) i (λ c. sets_of self.old i c && sets_of self.old j c) }
        ensures bytes { Rewrites self.old self.new result i (λ c. sets_of self.old i c && sets_of self.old j c) }
        ensures universe { self.new.universe ≡ self.old.universe }
        ensures lent { self.new.cells.ghost_name ≡ self.old.cells.ghost_name }
    {
        let Full { universe, cells } = self;
        universe.layout.meet(cells, i, j)
    }

    fn flip(&mut self, i: usize) -> Result<(), Fault>
        ensures sets { Alters (frame_of self.old) (frame_of self.new) (sets_of self.old) (sets_of self.new) result (one_set (frame_of self.old) i) i (λ c. (frame_of self.old).universe c && not (sets_of self.old i c)) }
        ensures bytes { Rewrites self.old self.new result i (λ c. (frame_of self.old).universe c && not (sets_of self.old i c)) }
        ensures universe { self.new.universe ≡ self.old.universe }
        ensures lent { self.new.cells.ghost_name ≡ self.old.cells.ghost_name }
    {
        let Full { universe, cells } = self;
        universe.flip(cells, i)
    }

    fn pick(&mut self, i: usize, b: usize) -> Result<(), Fault>
        ensures sets { Alters (frame_of self.old) (frame_of self.new) (sets_of self.old) (sets_of self.new) result (set_and_bit (frame_of self.old) i b) i (λ c. sets_of self.old i c && bit c b) }
        ensures bytes { Rewrites self.old self.new result i (λ c. sets_of self.old i c && bit c b) }
        ensures universe { self.new.universe ≡ self.old.universe }
        ensures lent { self.new.cells.ghost_name ≡ self.old.cells.ghost_name }
    {
        let Full { universe, cells } = self;
        universe.layout.pick_set(cells, i, b)
    }

    fn same(&self, i: usize, j: usize) -> Result<bool, Fault> {
        self.universe.layout.same(self.cells, i, j)
    }

    fn has(&self, i: usize, c: usize) -> Result<bool, Fault> {
        self.universe.layout.has(self.cells, i, c)
    }

    fn next(&self, i: usize, c: usize) -> Result<Option<usize>, Fault> {
        self.universe.layout.next(self.cells, i, c)
    }
}
