// Laying the valuations of a shape down as the bytes of a set.
ghost use Rattle.std.specs.Prelude.{◌≡◌, ℕ, ◌+◌, ◌*◌, ◌<◌};
ghost use Rattle.logic.specs.Codes.{bit, valuation};
ghost use Rattle.store.specs.Shapes.{shape_actions, shape_variables};
ghost use Rattle.full.specs.Stores.{Laid};

use crate::layout::Layout;
use store::shape::Shape;

pub(crate) fn lay(layout: &Layout) -> [u8; 512]
    ensures { Laid layout.now.shape result }
{
    let mut bytes = [0u8; 512];
    for (x, byte) in bytes[..layout.width()].iter_mut().enumerate() {
        *byte = valuation_byte(layout.shape, x);
    }
    bytes
}

// The byte x of the set of all valuations, from its highest bit on.
fn valuation_byte(shape: Shape, x: usize) -> u8
    requires { x < 512 }
    ensures { (m : ℕ) → m < 8 → bit result m ≡ valuation (shape_actions shape) (shape_variables shape) (8 * x + m) }
{
    (0..8).fold(0, |byte, b| {
        (byte % 128) * 2 + u8::from(shape.is_valuation(8 * x + (7 - b)))
    })
}
