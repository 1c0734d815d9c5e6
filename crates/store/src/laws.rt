// Laws of the words that the contracts cite.
ghost use Rattle.store.specs.Least.{LeastUnique};
ghost use Rattle.store.specs.Masks.{CoversDecides};

// Two answers that are each the smallest member from a place on are equal.
pub fn least_is_unique() -> u8
    ensures { LeastUnique }
{
    0
}

// The test whether a code has every bit of a mask says what it should.
pub fn mask_test_decides() -> u8
    ensures { CoversDecides }
{
    0
}
