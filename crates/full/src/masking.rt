// Altering the codes of a set in its bytes. The spare bits of its first byte stay.
ghost use Rattle.std.specs.Prelude.{◌≡◌, ℕ, ◌<◌, ◌≤◌, ◌&&◌, length};
ghost use Rattle.logic.specs.Codes.{bit};
ghost use Rattle.full.specs.Bytes.{width, bit_from};
ghost use Rattle.full.specs.Passes.{Merging, Mended, Recoded};
ghost use Rattle.full.specs.Stores.{shape_bits};

use crate::layout::Layout;
use crate::spans;

impl Layout {
    // Merges the codes of another set into those of a set.
    pub(crate) fn merge<F: Fn(u8, u8) -> u8>(&self, span: &mut [u8], source: &[u8], by: F)
        ghost op: { Merging }
        requires call { F.IsAlwaysCallable by }
        requires made { (a b r : ℕ) → F.post by a b r → r ≡ op.bytes a b }
        requires whole { length span.old ≡ width (shape_bits self.now.shape) }
        requires long { length span.old ≤ length source.now }
        ensures { Recoded (shape_bits self.now.shape) span.old span.new (λ c. op.bits (bit_from span.old 0 c) (bit_from source.now 0 c)) }
    {
        // With spare bits a set is one byte. It is written once, since the next call waits for it.
        if self.bits < 3 {
            span[0] = (by(span[0], source[0]) & self.mask) | (span[0] & !self.mask);
        } else {
            spans::merge(span, source, by);
        }
    }

    // Clears the codes of a set that lack the bit b.
    pub(crate) fn pick(&self, span: &mut [u8], b: usize)
        requires whole { length span.old ≡ width (shape_bits self.now.shape) }
        requires small { b < shape_bits self.now.shape }
        ensures { Recoded (shape_bits self.now.shape) span.old span.new (λ c. bit_from span.old 0 c && bit c b) }
    {
        let before = span[0];
        spans::pick(span, b);
        self.mend(span, before);
    }

    // Gives the first byte the bits of `before` back that are no codes. Where all are codes it is not written, since the
    // next call would wait for that byte.
    fn mend(&self, span: &mut [u8], before: u8)
        requires { 0 < length span.old }
        ensures { Mended span.old span.new before self.now.mask }
    {
        if self.mask != 0xFF {
            span[0] = (span[0] & self.mask) | (before & !self.mask);
        }
    }
}
