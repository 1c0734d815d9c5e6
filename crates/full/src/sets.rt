// The sets in the caller's bytes, by number. What alters a set leaves its spare bits.
ghost use Rattle.std.specs.Prelude.{◌≡◌, ℕ, ◌/◌, ◌^◌, ◌<◌, ◌≤◌, Bool, false, not, ◌&&◌, ◌||◌, Decides, MatchResult, length};
ghost use Rattle.logic.specs.Codes.{bit, valuation};
ghost use Rattle.store.specs.Shapes.{shape_actions, shape_variables};
ghost use Rattle.store.specs.Calls.{one_set, two_sets, set_and_bit, set_and_code, set_and_start, Answers, SameMembers};
ghost use Rattle.store.specs.Least.{Least};
ghost use Rattle.store.specs.declared.fault.Fault.TheVariants.{NoSuchSet};
ghost use Rattle.full.specs.Bytes.{width};
ghost use Rattle.full.specs.Passes.{Merging};
ghost use Rattle.full.specs.Stores.{shape_bits, full_frame, full_sets, Altered, Shown};

use crate::layout::Layout;
use crate::scan;
use crate::universe::Universe;
use store::fault::Fault;

impl Universe {
    // Merges the universe into a set, byte by byte.
    fn merge<F: Fn(u8, u8) -> u8>(&self, cells: &mut [u8], i: usize, by: F) -> Result<(), Fault>
        ghost op: { Merging }
        requires call { F.IsAlwaysCallable by }
        requires made { (a b r : ℕ) → F.post by a b r → r ≡ op.bytes a b }
        requires none { op.bits false false ≡ false }
        ensures { Altered self.now.layout.shape cells.old cells.new result (one_set (full_frame self.now.layout.shape cells.old) i) i (λ c. op.bits (full_sets self.now.layout.shape cells.old i c) (valuation (shape_actions self.now.layout.shape) (shape_variables self.now.layout.shape) c)) }
    {
        let width = self.layout.width();
        let at = self.layout.start_of(cells.len(), i)?;
        self.layout
            .merge(&mut cells[at..at + width], &self.bytes, by);
        Ok(())
    }

    pub(crate) fn clear(&self, cells: &mut [u8], i: usize) -> Result<(), Fault>
        ensures { Altered self.now.layout.shape cells.old cells.new result (one_set (full_frame self.now.layout.shape cells.old) i) i (λ _. false) }
    {
        self.merge(cells, i, |_, _| 0)
    }

    pub(crate) fn fill(&self, cells: &mut [u8], i: usize) -> Result<(), Fault>
        ensures { Altered self.now.layout.shape cells.old cells.new result (one_set (full_frame self.now.layout.shape cells.old) i) i (λ c. valuation (shape_actions self.now.layout.shape) (shape_variables self.now.layout.shape) c) }
    {
        self.merge(cells, i, |_, other| other)
    }

    // Not inlined, as `Layout::same`: a caller that makes all the calls has too few registers for all their loops.
    #[inline(never)]
    pub(crate) fn flip(&self, cells: &mut [u8], i: usize) -> Result<(), Fault>
        ensures { Altered self.now.layout.shape cells.old cells.new result (one_set (full_frame self.now.layout.shape cells.old) i) i (λ c. valuation (shape_actions self.now.layout.shape) (shape_variables self.now.layout.shape) c && not (full_sets self.now.layout.shape cells.old i c)) }
    {
        self.merge(cells, i, |byte, other| other ^ (other & byte))
    }
}

impl Layout {
    // Merges a set into another. One that is merged with itself stays.
    fn merge_sets<F: Fn(u8, u8) -> u8>(
        &self,
        cells: &mut [u8],
        i: usize,
        j: usize,
        by: F,
    ) -> Result<(), Fault>
        ghost op: { Merging }
        requires call { F.IsAlwaysCallable by }
        requires made { (a b r : ℕ) → F.post by a b r → r ≡ op.bytes a b }
        requires same { (p : Bool) → op.bits p p ≡ p }
        ensures { Altered self.now.shape cells.old cells.new result (two_sets (full_frame self.now.shape cells.old) i j) i (λ c. op.bits (full_sets self.now.shape cells.old i c) (full_sets self.now.shape cells.old j c)) }
    {
        let width = self.width();
        let at = self.start_of(cells.len(), i)?;
        let from = self.start_of(cells.len(), j)?;
        if i < j {
            let (low, high) = cells.split_at_mut(from);
            self.merge(&mut low[at..at + width], high, by);
        } else if j < i {
            let (low, high) = cells.split_at_mut(at);
            self.merge(&mut high[..width], &low[from..], by);
        }
        Ok(())
    }

    pub(crate) fn copy(&self, cells: &mut [u8], i: usize, j: usize) -> Result<(), Fault>
        ensures { Altered self.now.shape cells.old cells.new result (two_sets (full_frame self.now.shape cells.old) i j) i (λ c. full_sets self.now.shape cells.old j c) }
    {
        self.merge_sets(cells, i, j, |_, other| other)
    }

    #[tactic(auto, using(crate::proofs::BitLaws::or_same))]
    pub(crate) fn join(&self, cells: &mut [u8], i: usize, j: usize) -> Result<(), Fault>
        ensures { Altered self.now.shape cells.old cells.new result (two_sets (full_frame self.now.shape cells.old) i j) i (λ c. full_sets self.now.shape cells.old i c || full_sets self.now.shape cells.old j c) }
    {
        self.merge_sets(cells, i, j, |byte, other| byte | other)
    }

    #[tactic(auto, using(crate::proofs::BitLaws::and_same))]
    pub(crate) fn meet(&self, cells: &mut [u8], i: usize, j: usize) -> Result<(), Fault>
        ensures { Altered self.now.shape cells.old cells.new result (two_sets (full_frame self.now.shape cells.old) i j) i (λ c. full_sets self.now.shape cells.old i c && full_sets self.now.shape cells.old j c) }
    {
        self.merge_sets(cells, i, j, |byte, other| byte & other)
    }

    pub(crate) fn pick_set(&self, cells: &mut [u8], i: usize, b: usize) -> Result<(), Fault>
        ensures { Altered self.now.shape cells.old cells.new result (set_and_bit (full_frame self.now.shape cells.old) i b) i (λ c. full_sets self.now.shape cells.old i c && bit c b) }
    {
        let width = self.width();
        let at = self.start_of(cells.len(), i)?;
        if b >= self.bits {
            return Err(Fault::NoSuchBit);
        }
        self.pick(&mut cells[at..at + width], b);
        Ok(())
    }

    // Not inlined, as `Universe::flip`: so its loop is as fast wherever the linker puts it.
    #[inline(never)]
    pub(crate) fn same(&self, cells: &[u8], i: usize, j: usize) -> Result<bool, Fault>
        ensures { Answers result (two_sets (full_frame self.now.shape cells.now) i j) (λ b. Decides b (SameMembers (full_sets self.now.shape cells.now i) (full_sets self.now.shape cells.now j))) }
    {
        let differing = scan::differs(self.span(cells, i)?, self.span(cells, j)?);
        Ok(differing & self.mask == 0)
    }

    pub(crate) fn has(&self, cells: &[u8], i: usize, c: usize) -> Result<bool, Fault>
        ensures { Answers result (set_and_code (full_frame self.now.shape cells.now) i c) (λ b. b ≡ full_sets self.now.shape cells.now i c) }
    {
        let span = self.span(cells, i)?;
        if c >= self.codes() {
            return Err(Fault::CodeTooHigh);
        }
        Ok(scan::test_bit(span, c))
    }

    pub(crate) fn next(&self, cells: &[u8], i: usize, c: usize) -> Result<Option<usize>, Fault>
        ensures { Answers result (set_and_start (full_frame self.now.shape cells.now) i c) (Least (full_sets self.now.shape cells.now i) c) }
    {
        let span = self.span(cells, i)?;
        let codes = self.codes();
        if c > codes {
            return Err(Fault::CodeTooHigh);
        }
        Ok(scan::next_bit(span, c).filter(|d| *d < codes))
    }

    // The bytes of the set i.
    fn span<'a>(&self, cells: &'a [u8], i: usize) -> Result<&'a [u8], Fault>
        ensures { MatchResult result (λ span. Shown self.now.shape cells.now i span.now) (λ e. (length cells.now / width (shape_bits self.now.shape) ≤ i) × (e ≡ NoSuchSet)) }
    {
        let at = self.start_of(cells.len(), i)?;
        Ok(&cells[at..at + self.width()])
    }
}
