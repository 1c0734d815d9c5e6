// Why a shape, an opening or a call of a store is refused.
ghost use Rattle.std.specs.Prelude.{◌≡◌};
ghost use Rattle.store.specs.Faults.{fault_number};

#[derive(Clone, Copy, PartialEq, Eq, Debug)]
pub enum Fault {
    NoShape,
    NoValuation,
    NoSuchSet,
    NoSuchBit,
    CodeTooHigh,
}

impl Fault {
    pub fn number(self) -> u8
        ensures { result ≡ fault_number self }
    {
        match self {
            Fault::NoShape => 30,
            Fault::NoValuation => 31,
            Fault::NoSuchSet => 32,
            Fault::NoSuchBit => 33,
            Fault::CodeTooHigh => 34,
        }
    }
}
