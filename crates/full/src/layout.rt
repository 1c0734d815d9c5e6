// Where the sets of a shape lie in the bytes.
ghost use Rattle.std.specs.Prelude.{◌≡◌, ◌+◌, ◌/◌, ◌^◌, ◌<◌, ◌≤◌, MatchResult};
ghost use Rattle.store.specs.declared.fault.Fault.TheVariants.{NoSuchSet};
ghost use Rattle.full.specs.Bytes.{width, start, CodeMask};
ghost use Rattle.full.specs.Stores.{shape_bits};

use store::fault::Fault;
use store::shape::Shape;

#[derive(Clone, Copy)]
pub struct Layout {
    pub(crate) shape: Shape,
    pub(crate) bits: usize,
    // the bits of a set's first byte that are codes
    pub(crate) mask: u8,
    ghost most: { bits ≤ 12 },
    ghost counted: { bits ≡ shape_bits shape },
    ghost masked: { CodeMask (shape_bits shape) mask },
}

impl Layout {
    pub(crate) fn new(shape: Shape) -> Layout
        ensures { result.shape ≡ shape }
    {
        let bits = shape.bits();
        let mask = code_mask(bits);
        Layout { shape, bits, mask }
    }

    // How often 2 is a factor of the bytes that a set takes.
    fn width_log(&self) -> usize
        ensures value { 2 ^ result ≡ width (shape_bits self.now.shape) }
        ensures most { result ≤ 9 }
    {
        if self.bits <= 3 { 0 } else { self.bits - 3 }
    }

    // How many bytes a set takes.
    #[tactic(auto, using(crate::proofs::Widths::width_most))]
    pub(crate) fn width(&self) -> usize
        ensures value { result ≡ width (shape_bits self.now.shape) }
        ensures some { 1 ≤ result }
        ensures most { result ≤ 512 }
    {
        1 << self.width_log()
    }

    // How many sets so many bytes hold.
    pub(crate) fn sets_in(&self, len: usize) -> usize
        ensures { result ≡ len / width (shape_bits self.now.shape) }
    {
        len >> self.width_log()
    }

    // The byte at which the set i starts.
    pub(crate) fn start_of(&self, len: usize, i: usize) -> Result<usize, Fault>
        ensures { MatchResult result (λ at. (i < len / width (shape_bits self.now.shape)) × (at ≡ start (shape_bits self.now.shape) i) × (at + width (shape_bits self.now.shape) ≤ len)) (λ e. (len / width (shape_bits self.now.shape) ≤ i) × (e ≡ NoSuchSet)) }
    {
        if i < self.sets_in(len) {
            Ok(i * self.width())
        } else {
            Err(Fault::NoSuchSet)
        }
    }

    // How many codes there are.
    pub(crate) fn codes(&self) -> usize
        ensures { result ≡ 2 ^ shape_bits self.now.shape }
    {
        1 << self.bits
    }
}

// The bits of a set's first byte that are codes, where a code has so many bits.
fn code_mask(bits: usize) -> u8
    ensures { CodeMask bits result }
{
    match bits {
        0 => 0x01,
        1 => 0x03,
        2 => 0x0F,
        _ => 0xFF,
    }
}
