// The universe of the full store, laid down once as the bytes of a set.
ghost use Rattle.std.specs.Prelude.{◌≡◌};
ghost use Rattle.full.specs.Stores.{Laid};

use crate::laying;
use crate::layout::Layout;
use store::shape::Shape;

#[derive(Clone, Copy)]
pub struct Universe {
    pub(crate) bytes: [u8; 512],
    pub(crate) layout: Layout,
    ghost laid: { Laid layout.shape bytes },
}

impl Universe {
    pub(crate) fn new(shape: Shape) -> Universe
        ensures { result.layout.shape ≡ shape }
    {
        let layout = Layout::new(shape);
        let bytes = laying::lay(&layout);
        Universe { bytes, layout }
    }
}
