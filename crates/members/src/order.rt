// The order of codes by their ones, and among equals by number.
ghost use Rattle.std.specs.Prelude.{◌≡◌, Decides};
ghost use Rattle.members.specs.Order.{ones, Before};

pub fn comes_before(a: usize, b: usize) -> bool
    ensures { Decides result (Before a b) }
{
    rank(a) < rank(b)
}

// The place of a code in the order.
pub(crate) fn rank(c: usize) -> (u32, usize)
    ensures { result ≡ (ones c, c) }
{
    (c.count_ones(), c)
}
